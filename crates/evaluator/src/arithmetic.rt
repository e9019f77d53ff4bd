// Operators on two numbers.
ghost use Rattle.std.specs.Prelude.{◌≡◌, ◌<◌, ◌≤◌, int_div};
ghost use Rattle.std.proofs.Common.{of_z};
ghost use Rattle.std.specs.Int.{int_wrap, w32};
ghost use Rattle.rules.specs.Arithmetic.{holds, truth};
ghost use Rattle.evaluator.specs.Commands.{result_of};

// True is any number but 0.
pub fn holds(value: i32) -> bool
    ensures { result ≡ holds value }
{
    value != 0
}

// A truth as a number, 1 or 0, by the rules' word: the one clause for all operators that answer it.
pub fn truth(value: bool) -> i32
    ensures { result ≡ truth value }
{
    i32::from(value)
}

// Only -2147483648 by -1 wraps.
fn quotient(left: i32, right: i32) -> i32
    requires { 0 < of_z w32 right }
    ensures { result ≡ int_wrap w32 (int_div left right) }
{
    left.wrapping_div(right)
}

// What the operator of a command byte makes of two numbers: none for a divisor of 0. An enum of the operators would be made from
// the same bytes by as long a match.
pub fn computed(command: u8, left: i32, right: i32) -> Option<i32>
    requires { (0x14 ≤ command) × (command ≤ 0x1C) }
    ensures { result ≡ result_of command left right }
{
    match command {
        0x14 => Some(left.wrapping_add(right)),
        0x15 => Some(left.wrapping_sub(right)),
        0x16 => Some(left.wrapping_mul(right)),
        0x17 if right == 0 => None,
        0x17 => Some(quotient(left, right)),
        0x18 if right == 0 => None,
        0x18 => Some(left.wrapping_rem(right)),
        0x19 => Some(truth(left == right)),
        0x1A => Some(truth(left < right)),
        0x1B => Some(truth(holds(left) && holds(right))),
        0x1C => Some(truth(holds(left) || holds(right))),
        _ => unreachable(),
    }
}
