use scale::Scale;
use scale::flags::Flags;
use scale::minutes::Minutes;
use scale::yes_no::YesNo;

// A scale with weights to try, and numbers to tell answers apart by.
pub(crate) trait Sample: Scale {
    fn sample(number: u32) -> Self;

    fn digest(self) -> u64;
}

impl Sample for YesNo {
    fn sample(_number: u32) -> YesNo {
        YesNo { reached: true }
    }

    fn digest(self) -> u64 {
        self.reached as u64
    }
}

impl Sample for Option<Minutes> {
    fn sample(number: u32) -> Option<Minutes> {
        Some(Minutes::new(1 + number % 97))
    }

    fn digest(self) -> u64 {
        self.map_or(0, |minutes| minutes.count() as u64 + 1)
    }
}

impl Sample for Option<Flags> {
    fn sample(number: u32) -> Option<Flags> {
        let keep = !(1 << (number % 32));
        let set = 1 << (number / 32 % 32);
        Some(Flags::new(keep, set))
    }

    fn digest(self) -> u64 {
        self.map_or(0, |flags| {
            flags.keep().wrapping_mul(31).wrapping_add(flags.set()) as u64 + 1
        })
    }
}
