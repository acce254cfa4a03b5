ghost use Rattle.std.specs.Prelude.{◌≡◌, ◌/◌, ◌%◌, ◌<◌, ◌≤◌, ◌^◌, ◌*◌, ◌+◌};
ghost use Rattle.ch_plan.specs.Divisor.{number_of, IsDivisor};

/// A number from 1 on, by which division is quick where it is a power of two.
#[derive(Clone, Copy)]
pub enum Divisor {
    Power(u32),
    Number(u32),
}

pub fn divisor_of(number: u32) -> Divisor
    requires { 1 ≤ number }
    ensures fits { IsDivisor result }
    ensures value { number_of result ≡ number }
{
    let power = number.trailing_zeros();
    if power < 32 && number == 1u32 << power {
        Divisor::Power(power)
    } else {
        Divisor::Number(number)
    }
}

#[inline]
pub(crate) fn quotient(number: u64, by: Divisor) -> u64
    requires { IsDivisor by }
    ensures value { result ≡ number / number_of by }
    ensures small { result ≤ number }
{
    match by {
        Divisor::Power(power) => number / (1u64 << power),
        Divisor::Number(divisor) => number / u64::from(divisor),
    }
}

#[inline]
pub(crate) fn remainder(number: u64, by: Divisor) -> u64
    requires { IsDivisor by }
    ensures { result ≡ number % number_of by }
{
    match by {
        Divisor::Power(power) => number % (1u64 << power),
        Divisor::Number(divisor) => number % u64::from(divisor),
    }
}
