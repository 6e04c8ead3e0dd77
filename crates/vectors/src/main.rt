// Compares worked cases with what the readers make of them, and prints how many agree.
#![tactic(auto)]

ghost use Rattle.std.specs.Prelude.{◌≡◌};
ghost use Rattle.parts.specs.Parts.{whole_of};
ghost use Rattle.cbor.specs.Items.{item_of};
ghost use Rattle.vectors.specs.Told.{told_of};

mod cases;
mod kinds;

use cases::CASES;
use cbor::items::take_item;
use kinds::Expected;
use parts::kinds::Part;

// The item that some bytes begin with, if any.
fn item_of(bytes: &[u8]) -> Option<Expected>
    ensures { result ≡ told_of (item_of (whole_of bytes.now)) }
{
    let taken = take_item(Part::whole(bytes))?;
    Some(Expected::from(taken.item))
}

// Prints the cases that differ, and how many agree.
fn main(rt: HostRuntime) -> anyhow::Result<()> {
    // Counted in the loop that prints, as an adapter that prints would hide it.
    let mut agree: usize = 0;
    for (number, case) in CASES.iter().enumerate() {
        let found = item_of(case.bytes);
        if found == case.item {
            agree += 1;
        } else {
            println!(rt; "cbor case {number} differs: {found:?}")?;
        }
    }
    let all = CASES.len();
    println!(rt; "cbor items: {agree} of {all} agree")?;
    Ok(())
}
