ghost use Rattle.std.specs.Prelude.{◌≡◌};
ghost use Rattle.parts.specs.Parts.{piece};
ghost use Rattle.parts.specs.Reads.{TakenFrom};
ghost use Rattle.manifests.specs.Triples.{only_condition, reference_at, endorsement_record, conditional_pair, section_of};

use crate::kinds::{Section, Sort, Triple};
use cbor::scalars::read_array_of;
use claims::kinds::{Claim, Environment};
use conditions::kinds::Condition;
use measurements::kinds::Allowed;
use parts::kinds::{Part, Read};
use records::additions::additions_of;
use records::kinds::{Few, InRecord};
use records::records::{read_condition, read_maps, read_record_head, read_records};
use refusals::Refusal;

// One condition alone.
fn only(condition: Condition) -> Few<Condition>
    ensures { result ≡ only_condition condition }
{
    Few::new(Condition::NONE).with(condition)
}

// A measurement map that is a reference by itself.
pub(crate) fn read_reference(
    part: Part<'_>,
    signer: u64,
    environment: Environment,
) -> Result<Read<Triple>, Refusal>
    ensures value { result ≡ reference_at signer environment (piece part.entry) }
    ensures within { TakenFrom (piece part.entry) result }
{
    let condition = read_condition(part, Allowed::IN_CONDITION, environment)?;
    Ok(condition.map(|condition| Triple {
        signer,
        sort: Sort::Reference,
        conditions: only(condition),
        additions: Few::new(Claim::NONE),
    }))
}

// A record that is an endorsement on its environment alone.
pub(crate) fn read_endorsement(part: Part<'_>, signer: u64) -> Result<Read<Triple>, Refusal>
    ensures value { result ≡ endorsement_record signer (piece part.entry) }
    ensures within { TakenFrom (piece part.entry) result }
{
    let head = read_record_head(part)?;
    let environment = head.value;
    let start = InRecord {
        allowed: Allowed::IN_ADDITION,
        environment,
        found: Few::new(Condition::NONE),
    };
    let alone = Condition {
        environment,
        wanted: None,
    };
    let maps = read_maps(part.after(head.size), start)?;
    let triple = maps.map(|found| Triple {
        signer,
        sort: Sort::Endorsement,
        conditions: only(alone),
        additions: additions_of(&found),
    });
    Ok(triple.behind(head.size))
}

// A pair of conditions and additions.
pub(crate) fn read_conditional(part: Part<'_>, signer: u64) -> Result<Read<Triple>, Refusal>
    ensures value { result ≡ conditional_pair signer (piece part.entry) }
    ensures within { TakenFrom (piece part.entry) result }
{
    let head = read_array_of(part, 2)?;
    let pair = part.after(head.size);
    let conditions = read_records(pair, Allowed::IN_CONDITION)?;
    let additions = read_records(pair.after(conditions.size), Allowed::IN_ADDITION)?;
    let triple = additions.map(|found| Triple {
        signer,
        sort: Sort::Endorsement,
        conditions: conditions.value,
        additions: additions_of(&found),
    });
    Ok(triple.behind(conditions.size).behind(head.size))
}

// What stands under a key of a manifest, if something may; the caller refuses another key at its place, so this gives an Option and no error.
// A table of its own: with other tables it shares the shape of a match, and no row.
pub(crate) fn section_of(key: u64) -> Option<Section>
    ensures { result ≡ section_of key }
{
    match key {
        0 => Some(Section::References),
        1 => Some(Section::Endorsements),
        10 => Some(Section::Conditionals),
        _ => None,
    }
}
