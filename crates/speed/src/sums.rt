// Checksums: each number is mixed into the sum of those before it.
use bench::{Checked, Listed, Ran, State, StatePlace, Translated};
use comparing::Compared;

// Every sum is below this.
const MODULUS: u64 = 4294967291;

const FACTOR: u64 = 31;

// The lowest number with a sign is so far below 0.
const BELOW: i64 = 2147483648;

// The sum of the numbers that were mixed into it.
#[derive(Clone, Copy)]
pub struct Sum(u64);

impl Sum {
    // The sum of no numbers.
    pub const FIRST: Sum = Sum(1);

    pub fn value(self) -> u64 {
        self.0
    }

    fn with(self, n: u64) -> Sum {
        Sum(((self.0 % MODULUS) * FACTOR + n % MODULUS) % MODULUS)
    }

    // A number with a sign, moved up so that the lowest is 0.
    fn with_signed(self, z: i32) -> Sum {
        self.with((z as i64 + BELOW) as u64)
    }

    fn with_all<const COUNT: usize>(self, numbers: [u64; COUNT]) -> Sum {
        let mut sum = self;
        for n in numbers {
            sum = sum.with(n);
        }
        sum
    }

    pub fn with_bytes(self, values: &[u8]) -> Sum {
        values.iter().fold(self, |sum, b| sum.with(*b as u64))
    }

    fn with_place(self, place: StatePlace) -> Sum {
        self.with_all([place.cell as u64, place.target as u64, place.mark as u64])
    }

    fn with_state(self, end: State) -> Sum {
        let mut sum = self.with_all([end.next as u64, end.kept as u64]);
        for place in end.places {
            sum = sum.with_place(place);
        }
        sum = sum.with_all([end.handler as u64, end.hold as u64, end.motion as u64]);
        sum = sum.with_signed(end.value);
        for value in end.variables {
            sum = sum.with_signed(value);
        }
        sum
    }
}

// What a call answers: its number, 0 unless the call is refused; and all of it, mixed into a sum.
pub trait Answer {
    fn number(&self) -> u8;

    fn mixed_into(&self, sum: Sum) -> Sum;
}

impl Answer for Translated {
    fn number(&self) -> u8 {
        self.number
    }

    fn mixed_into(&self, sum: Sum) -> Sum {
        sum.with_all([self.number as u64, self.line as u64, self.length as u64])
    }
}

impl Answer for Checked {
    fn number(&self) -> u8 {
        self.number
    }

    fn mixed_into(&self, sum: Sum) -> Sum {
        sum.with(self.number as u64)
    }
}

impl Answer for Listed {
    fn number(&self) -> u8 {
        self.number
    }

    fn mixed_into(&self, sum: Sum) -> Sum {
        sum.with_all([self.number as u64, self.length as u64])
    }
}

impl Answer for Ran {
    fn number(&self) -> u8 {
        self.number
    }

    fn mixed_into(&self, sum: Sum) -> Sum {
        sum.with_all([
            self.number as u64,
            self.index as u64,
            self.reason as u64,
            self.turns,
            self.records as u64,
        ])
        .with_state(self.state)
    }
}

impl Answer for Compared {
    fn number(&self) -> u8 {
        self.number
    }

    fn mixed_into(&self, sum: Sum) -> Sum {
        sum.with_all([self.number as u64, self.entries as u64])
    }
}
