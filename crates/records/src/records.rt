ghost use Rattle.std.specs.Prelude.{◌≡◌};
ghost use Rattle.records.specs.Laws.{RuleAsWritten};
ghost use Rattle.parts.specs.Parts.{piece};
ghost use Rattle.parts.specs.Reads.{TakenFrom};
ghost use Rattle.records.specs.Records.{record_head, condition_at, map_at_most, maps_under, record_at, records_of, judged};

use crate::kinds::{Few, InRecord, InRecords};
use cbor::holders::read_array_by;
use cbor::scalars::{read_array_of, read_map};
use claims::kinds::Environment;
use conditions::kinds::Condition;
use measurements::environments::read_environment;
use measurements::kinds::Allowed;
use measurements::measurements::read_measurement;
use parts::holders::Elements;
use parts::kinds::{Part, Read};
use refusals::Refusal;

// The beginning of a record: the head of an array of two, and an environment map.
pub fn read_record_head(part: Part<'_>) -> Result<Read<Environment>, Refusal>
    ensures value { result ≡ record_head (piece part.entry) }
    ensures within { TakenFrom (piece part.entry) result }
{
    let head = read_array_of(part, 2)?;
    let environment = read_environment(part.after(head.size))?;
    Ok(environment.behind(head.size))
}

// A measurement map, as a condition on the environment of its record.
pub fn read_condition(
    part: Part<'_>,
    allowed: Allowed,
    environment: Environment,
) -> Result<Read<Condition>, Refusal>
    ensures value { result ≡ condition_at allowed environment (piece part.entry) }
    ensures within { TakenFrom (piece part.entry) result }
{
    let map = read_measurement(part, allowed)?;
    Ok(map.map(|wanted| Condition {
        environment,
        wanted: Some(wanted),
    }))
}

impl Elements for InRecord {
    ghost element = { map_at_most };

    fn read_element(self, part: Part<'_>) -> Result<Read<InRecord>, Refusal> {
        read_map(part)?;
        if !self.found.has_room() {
            return Err(Refusal::OutOfLimits(part.place()));
        }
        let condition = read_condition(part, self.allowed, self.environment)?;
        Ok(condition.map(|condition| InRecord {
            found: self.found.with(condition),
            ..self
        }))
    }
}

// The measurement maps of a record, which join those of the records before it.
pub fn read_maps(part: Part<'_>, start: InRecord) -> Result<Read<Few<Condition>>, Refusal>
    ensures value { result ≡ maps_under start.allowed start.found start.environment (piece part.entry) }
    ensures within { TakenFrom (piece part.entry) result }
{
    let maps = read_array_by(part, start)?;
    Ok(maps.map(|maps| maps.found))
}

impl Elements for InRecords {
    ghost element = { record_at };

    fn read_element(self, part: Part<'_>) -> Result<Read<InRecords>, Refusal> {
        let head = read_record_head(part)?;
        let start = InRecord {
            allowed: self.allowed,
            environment: head.value,
            found: self.found,
        };
        let maps = read_maps(part.after(head.size), start)?;
        let records = maps.map(|found| InRecords { found, ..self });
        Ok(records.behind(head.size))
    }
}

// An array of records, each of whose measurement maps is a condition: at most four in all.
pub fn read_records(part: Part<'_>, allowed: Allowed) -> Result<Read<Few<Condition>>, Refusal>
    ensures value { result ≡ records_of allowed (piece part.entry) }
    ensures within { TakenFrom (piece part.entry) result }
{
    let start = InRecords {
        allowed,
        found: Few::new(Condition::NONE),
    };
    let records = read_array_by(part, start)?;
    Ok(records.map(|records| records.found))
}

// The conditions of a booking rule: a message that is an array of records, with nothing left over.
#[tactic(auto, using(crate::proofs::Rules::rule_as_written))]
pub fn read_rule(message: &[u8]) -> Result<Few<Condition>, Refusal>
    ensures value { result ≡ judged message.now }
    ensures law { RuleAsWritten message.now }
{
    let records = read_records(Part::whole(message), Allowed::IN_CONDITION)?;
    if records.size < message.len() {
        return Err(Refusal::Malformed(records.size));
    }
    Ok(records.value)
}
