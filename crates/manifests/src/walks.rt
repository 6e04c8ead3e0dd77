ghost use Rattle.std.specs.Prelude.{◌≡◌, ◌-◌, ◌<◌, ◌≤◌, length, IfSome, IfOk};
ghost use Rattle.parts.specs.Parts.{piece};
ghost use Rattle.refusals.specs.Reading.{keeps};
ghost use Rattle.manifests.specs.Laws.{WalkedWhole};
ghost use Rattle.manifests.specs.Walks.{GoesOn, ahead_of, begun, map_step, record_step, past_element, section_step, entry_step, step_from, triple_of, cursor_behind};

use crate::kinds::{Cursor, Section, Step, Triple, Walk};
use crate::triples::{read_conditional, read_endorsement, read_reference, section_of};
use cbor::holders::filled;
use cbor::scalars::{read_array, read_map, read_number};
use claims::kinds::Environment;
use parts::kinds::Part;
use records::records::read_record_head;
use refusals::Refusal;
use refusals::reading::rises;

// The cursor behind an element of so many bytes.
fn past_element(cursor: Cursor, used: usize) -> Cursor
    ensures { result ≡ past_element cursor used }
{
    Cursor {
        used,
        elements: cursor.elements.saturating_sub(1),
        maps: 0,
        ..cursor
    }
}

impl<'a> Walk<'a> {
    // The message from the cursor on.
    fn ahead(self) -> Part<'a>
        ensures value { piece result ≡ ahead_of self.entry.cursor self.entry.message.now }
        ensures len { length (piece result).bytes ≡ length self.entry.message.now - self.entry.cursor.used }
    {
        Part::whole(self.message).after(self.cursor.used)
    }

    // The next measurement map of a reference record.
    fn next_map(self) -> Result<Step, Refusal>
        ensures value { result ≡ map_step self.entry.cursor self.entry.message.now }
        ensures within { IfOk result (GoesOn self.entry.cursor self.entry.message.now) }
    {
        let cursor = self.cursor;
        let map = read_reference(self.ahead(), cursor.signer, cursor.environment)?;
        Ok(Step {
            triple: map.value,
            cursor: Cursor {
                used: cursor.used + map.size,
                maps: cursor.maps.saturating_sub(1),
                ..cursor
            },
        })
    }

    // The next reference record, and its first measurement map.
    fn next_record(self) -> Result<Step, Refusal>
        ensures value { result ≡ record_step self.entry.cursor self.entry.message.now }
        ensures within { IfOk result (GoesOn self.entry.cursor self.entry.message.now) }
    {
        let cursor = self.cursor;
        let part = self.ahead();
        let head = read_record_head(part)?;
        let rest = part.after(head.size);
        let maps = filled(read_array(rest)?, rest)?;
        let inside = Cursor {
            used: cursor.used + (head.size + maps.size),
            elements: cursor.elements.saturating_sub(1),
            environment: head.value,
            maps: maps.value,
            ..cursor
        };
        let walk = Walk {
            cursor: inside,
            ..self
        };
        walk.next_map()
    }

    // The first triple of the next element. A match on the section, as one of the three has a step of its own.
    fn next_element(self) -> Result<Step, Refusal>
        ensures value { result ≡ section_step self.entry.cursor.section self.entry.cursor self.entry.message.now }
        ensures within { IfOk result (GoesOn self.entry.cursor self.entry.message.now) }
    {
        let cursor = self.cursor;
        let triple = match cursor.section {
            Section::References => return self.next_record(),
            Section::Endorsements => read_endorsement(self.ahead(), cursor.signer)?,
            Section::Conditionals => read_conditional(self.ahead(), cursor.signer)?,
        };
        Ok(Step {
            triple: triple.value,
            cursor: past_element(cursor, cursor.used + triple.size),
        })
    }

    // The first triple of the next entry.
    fn next_entry(self) -> Result<Step, Refusal>
        ensures value { result ≡ entry_step self.entry.cursor self.entry.message.now }
        ensures within { IfOk result (GoesOn self.entry.cursor self.entry.message.now) }
    {
        let cursor = self.cursor;
        let part = self.ahead();
        let key = read_number(part)?;
        if !rises(cursor.last, key.value) {
            return Err(Refusal::Unknown(part.place()));
        }
        let section = section_of(key.value).ok_or(Refusal::Unknown(part.place()))?;
        let rest = part.after(key.size);
        let elements = filled(read_array(rest)?, rest)?;
        let inside = Cursor {
            used: cursor.used + (key.size + elements.size),
            entries: cursor.entries.saturating_sub(1),
            last: Some(key.value),
            section,
            elements: elements.value,
            maps: 0,
            ..cursor
        };
        let walk = Walk {
            cursor: inside,
            ..self
        };
        walk.next_element()
    }

    // The next step, by what is left first: measurement maps, elements, entries.
    fn step(self) -> Result<Option<Step>, Refusal>
        ensures value { result ≡ step_from self.entry.cursor self.entry.message.now }
        ensures within { IfOk result (λ o. IfSome o (GoesOn self.entry.cursor self.entry.message.now)) }
    {
        let cursor = self.cursor;
        if cursor.maps > 0 {
            return self.next_map().map(Some);
        }
        if cursor.elements > 0 {
            return self.next_element().map(Some);
        }
        if cursor.entries > 0 {
            return self.next_entry().map(Some);
        }
        if cursor.used < self.message.len() {
            return Err(Refusal::Malformed(cursor.used));
        }
        Ok(None)
    }

    // The next triple, behind which the walk then stands; none at the end of the message. Where there is none, or a refusal, it stays; so it
    // is no Iterator, which would have to end behind a refusal. The `let .. else` stands as a closure of `map` cannot move the walk it is called on.
    #[tactic(auto, using(crate::proofs::Limits::walked_whole))]
    pub fn next(&mut self) -> Result<Option<Triple>, Refusal>
        ensures value { result ≡ keeps (step_from self.old.cursor self.old.message.now) triple_of }
        ensures cursor { self.new.cursor ≡ cursor_behind self.old.cursor (step_from self.old.cursor self.old.message.now) }
        ensures message { self.new.message.now ≡ self.old.message.now }
        ensures within { IfOk result (λ o. IfSome o (λ _. (self.old.cursor.used < self.new.cursor.used) × (self.new.cursor.used ≤ length self.old.message.now))) }
        ensures law { WalkedWhole self.old.message.now }
    {
        let Some(step) = self.step()? else {
            return Ok(None);
        };
        self.cursor = step.cursor;
        Ok(Some(step.triple))
    }
}

// A walk at the beginning of a message, behind the head of the manifest.
#[tactic(auto, using(crate::proofs::Limits::walked_whole))]
pub fn begin(signer: u64, message: &[u8]) -> Result<Walk<'_>, Refusal>
    ensures value { keeps result (λ w. w.cursor) ≡ begun signer message.now }
    ensures message { IfOk result (λ w. w.message.now ≡ message.now) }
    ensures within { IfOk result (λ w. w.cursor.used ≤ length message.now) }
    ensures law { WalkedWhole message.now }
{
    let whole = Part::whole(message);
    let head = filled(read_map(whole)?, whole)?;
    let cursor = Cursor {
        signer,
        used: head.size,
        entries: head.value,
        last: None,
        section: Section::References,
        elements: 0,
        environment: Environment::NONE,
        maps: 0,
    };
    Ok(Walk { message, cursor })
}
