// What of names wants a look.
ghost use Rattle.std.specs.Prelude.{◌≡◌, ◌≤◌, length, IfOk};
ghost use Rattle.ballot_findings.specs.Names.{have_like_names, have_one_name, name_of, plainly};

use crate::no_memory::NoMemory;
use candidate_roll::Roll;
use std::alloc::Global;

/// The name of candidate `c`.
pub(crate) fn name_of(roll: &Roll, c: u32) -> &[u8]
    requires { (1 ≤ c) × (c ≤ length roll.now.names) }
    ensures { result.now ≡ name_of roll.now.names c }
{
    roll.name(c).bytes()
}

/// Whether two candidates have the same name.
pub(crate) fn have_one_name(roll: &Roll, c: u32, d: u32) -> bool
    requires one { (1 ≤ c) × (c ≤ length roll.now.names) }
    requires other { (1 ≤ d) × (d ≤ length roll.now.names) }
    ensures { result ≡ have_one_name roll.now.names c d }
{
    name_of(roll, c) == name_of(roll, d)
}

/// Whether only spaces and the case of ASCII letters tell two candidates' names apart.
pub(crate) fn have_like_names(alloc: Global, roll: &Roll, c: u32, d: u32) -> Result<bool, NoMemory>
    requires one { (1 ≤ c) × (c ≤ length roll.now.names) }
    requires other { (1 ≤ d) × (d ≤ length roll.now.names) }
    ensures { IfOk result (λ like. like ≡ have_like_names roll.now.names c d) }
{
    if have_one_name(roll, c, d) {
        return Ok(false);
    }
    let one = plainly(alloc, name_of(roll, c))?;
    let other = plainly(alloc, name_of(roll, d))?;
    Ok(one.as_slice() == other.as_slice())
}

/// A name without its spaces, in small letters.
fn plainly(alloc: Global, name: &[u8]) -> Result<Vec<u8>, NoMemory>
    ensures { IfOk result (λ plain. plain.items ≡ plainly name.now) }
{
    let mut plain = Vec::new(alloc);
    for byte in name {
        if *byte != b' ' {
            plain.push(byte.to_ascii_lowercase())?;
        }
    }
    Ok(plain)
}
