//! The levy: a total shared out over the loads of eleven accounts.
ghost use Rattle.std.specs.Prelude.{sum, ◌≡◌, ◌*◌, ◌/◌, ◌^◌, ◌<◌, ◌≤◌, length};
ghost use Rattle.schedule.specs.Levies as levies;

// The loads of at most eleven accounts together.
fn sum_of(loads: &[u32]) -> u64
    requires { length loads.now ≤ 11 }
    ensures value { result ≡ sum loads.now }
    ensures bound { result ≤ 11 * 2 ^ 32 }
{
    loads.iter().map(|kw| u64::from(*kw)).sum()
}

// floor(total × part / whole).
fn share(total: u64, part: u64, whole: u64) -> u64
    requires { (0 < whole) × (part ≤ whole) }
    ensures { result ≡ total * part / whole }
{
    (total as u128 * part as u128 / whole as u128) as u64
}

/// What an account, 1 to 11, bears of a total, both in cents: what the accounts up to it bear, less
/// what those before it bear. The loads are in kWmin.
/// `None` for an account outside 1 to 11, or where all loads are zero.
pub fn levy(total: u64, loads: &[u32; 11], account: u32) -> Option<u64>
    ensures { result ≡ levies.levy_of total loads.now account }
{
    if !(1..=11).contains(&account) {
        return None;
    }
    let number = account as usize;
    let whole = sum_of(loads);
    if whole == 0 {
        return None;
    }
    let through = share(total, sum_of(&loads[..number]), whole);
    let before = share(total, sum_of(&loads[..number - 1]), whole);
    Some(through - before)
}
