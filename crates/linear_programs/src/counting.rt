//! How many units a run can need.
ghost use Rattle.std.specs.Prelude.{◌≡◌, ◌+◌, ◌*◌, ◌/◌, ◌^◌, ◌<◌, ◌≤◌, ◌↔◌, IfSome, IsSome, Some, None, if◌then◌else◌, nat_lt};
ghost use Rattle.simplex_run.specs.Choose.{choose};
ghost use Rattle.fraction_tableau.specs.declared.limits.TheConstants.{MAX_SIDE};

/// The number of ways to choose `rows` of `variables + rows`, or None where that is above
/// `2^63 - 1`: with so many units left, a run of a program of that size does not end for want of
/// one. It takes no memory.
pub fn choices(variables: u32, rows: u32) -> Option<u64>
    requires { (variables ≤ MAX_SIDE) × (rows ≤ MAX_SIDE) }
    ensures value { IfSome result (λ number. number ≡ choose (variables + rows) rows) }
    ensures fits { IsSome result ↔ (choose (variables + rows) rows < 2 ^ 63) }
{
    if variables < rows {
        ways(rows, variables)
    } else {
        ways(variables, rows)
    }
}

/// The number of ways to choose `chosen` of `others + chosen`, or None where it is too great.
fn ways(others: u32, chosen: u32) -> Option<u64>
    requires { (others ≤ MAX_SIDE) × (chosen ≤ MAX_SIDE) }
    ensures value { IfSome result (λ number. number ≡ choose (others + chosen) chosen) }
    ensures fits { IsSome result ↔ (choose (others + chosen) chosen < 2 ^ 63) }
{
    let mut number = 1;
    for k in 0..chosen {
        let Some(next) = with_one_more(number, others + k + 1, k + 1) else {
            return None;
        };
        number = next;
    }
    Some(number)
}

/// The number, times `things` over `chosen`, where it is not too great.
fn with_one_more(number: u64, things: u32, chosen: u32) -> Option<u64>
    requires number { number < 2 ^ 63 }
    requires chosen { 0 < chosen }
    ensures { result ≡ (if nat_lt (number * things / chosen) (2 ^ 63)
        then Some (number * things / chosen) else None) }
{
    let next = u128::from(number) * u128::from(things) / u128::from(chosen);
    if next < 1 << 63 {
        Some(next as u64)
    } else {
        None
    }
}
