// The lines about one person, at the end of a buffer.
ghost use Rattle.std.specs.Prelude.{◌≡◌, ◌<◌, ◌++◌, OnOk};
ghost use Rattle.rdf_terms.specs.Canon.{canon, canonical_line};
ghost use Rattle.generated_data.specs.Generated.{knows, names, cities, about};
ghost use Rattle.generated_data.specs.Lines.{numbered, line_with};

use itoa::Buffer;
use tpf_base::OutOfMemory;

/// Adds a text and a number in decimal digits after it.
#[tactic(auto, unfolding(crate::specs::Lines::numbered))]
fn add_numbered(buffer: &mut Vec<u8>, before: &[u8], number: u32) -> Result<(), OutOfMemory>
    ensures { OnOk result (buffer.new.items ≡ buffer.old.items ++ numbered before.now number) }
{
    let mut digits = Buffer::new();
    buffer.extend_from_slice(before)?;
    buffer.extend_from_slice(digits.format(number).as_bytes())?;
    Ok(())
}

/// Adds a line about a person, which ends in a number between two texts.
fn add_line(
    buffer: &mut Vec<u8>,
    person: u32,
    before: &[u8],
    number: u32,
    after: &[u8],
) -> Result<(), OutOfMemory>
    ensures { OnOk result (buffer.new.items ≡ buffer.old.items ++ line_with person before.now number after.now) }
{
    add_numbered(buffer, b"<http://example.org/person/", person)?;
    add_numbered(buffer, before, number)?;
    buffer.extend_from_slice(after)?;
    Ok(())
}

/// Adds the line that says whom a person knows.
fn add_knows(buffer: &mut Vec<u8>, persons: u32, person: u32) -> Result<(), OutOfMemory>
    requires { person < persons }
    ensures { OnOk result (buffer.new.items ≡ buffer.old.items ++ canonical_line (knows persons person)) }
{
    let known = ((7 * person as u64 + 1) % persons as u64) as u32;
    add_line(
        buffer,
        person,
        b"> <http://example.org/knows> <http://example.org/person/",
        known,
        b"> .\n",
    )
}

/// Adds the line with a person's name, where the person has one.
fn add_name(buffer: &mut Vec<u8>, person: u32) -> Result<(), OutOfMemory>
    ensures { OnOk result (buffer.new.items ≡ buffer.old.items ++ canon (names person)) }
{
    if person % 3 != 0 {
        return Ok(());
    }
    add_line(
        buffer,
        person,
        b"> <http://example.org/name> \"Person ",
        person,
        b"\" .\n",
    )
}

/// Adds the line with a person's city, where the person has one.
fn add_city(buffer: &mut Vec<u8>, person: u32) -> Result<(), OutOfMemory>
    ensures { OnOk result (buffer.new.items ≡ buffer.old.items ++ canon (cities person)) }
{
    if person % 10 != 0 {
        return Ok(());
    }
    add_line(
        buffer,
        person,
        b"> <http://example.org/city> <http://example.org/city/",
        person % 7,
        b"> .\n",
    )
}

/// Adds all lines about a person among so many.
pub fn add_person(buffer: &mut Vec<u8>, persons: u32, person: u32) -> Result<(), OutOfMemory>
    requires { person < persons }
    ensures { OnOk result (buffer.new.items ≡ buffer.old.items ++ canon (about persons person)) }
{
    add_knows(buffer, persons, person)?;
    add_name(buffer, person)?;
    add_city(buffer, person)
}
