//! Numbers that follow from a seed (Park and Miller's generator with the multiplier 48271).
ghost use Rattle.std.specs.Prelude.{◌≡◌, ◌≢◌, ◌%◌, ◌<◌};
ghost use Rattle.chem_gen.specs.Script.{next};

const MULTIPLIER: u64 = 48271;

const MODULUS: u64 = 2147483647;

/// The numbers after one.
#[derive(Debug, Drop)]
pub struct Numbers {
    pub last: u32,
}

impl Numbers {
    /// The next number, as a remainder.
    pub fn pick(&mut self, below: u32) -> u32
        requires { below ≢ 0 }
        ensures value { result ≡ next self.old.last % below }
        ensures next { self.new.last ≡ next self.old.last }
        ensures small { result < below }
    {
        self.last = (MULTIPLIER * u64::from(self.last) % MODULUS) as u32;
        self.last % below
    }
}
