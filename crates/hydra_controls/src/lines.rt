// The lines of a page's metadata, each made when it is written.
ghost use Rattle.std.specs.Prelude.{◌≡◌, ◌≤◌, ◌<◌, ◌*◌, ◌^◌, ◌++◌, length, take, drop, nat_lt, IfOk, OnOk, OnErr};
ghost use Rattle.std.specs.List.{AllByRecursion};
ghost use Rattle.rdf_terms.specs.declared.term.Quad.{Quad};
ghost use Rattle.list_laws.specs.Begins.{Begins};
ghost use Rattle.tpf_base.specs.Addresses.{address_text};
ghost use Rattle.template_fill.specs.Forms.{HasNoBlank};
ghost use Rattle.template_fill.specs.Metadata.{metadata_at, page_metadata};
ghost use Rattle.hydra_controls.specs.Facts.{AreFacts, addresses_by, quads_of};
ghost use Rattle.hydra_controls.specs.Lines.{is_left_of_line, line_in, lines_text, part_of_line};

use crate::Config;
use crate::cut::Cut;
use crate::facts::PageFacts;
use crate::pages::{address, last_page};
use rdf_terms::Slots;
use std::alloc::Global;
use std::marker::Model;
use template_fill::WebAddress;
use tpf_base::OutOfMemory;

/// The lines of a page's metadata, of which each is made when it is written. It keeps the base and the
/// address of page 1 once, of which the other addresses are longer by a number.
///
/// Contracts see it as the list of the quads.
pub struct MetadataLines {
    base: WebAddress,
    first: WebAddress,
    fixed: bool,
    number: u64,
    last: u64,
    count: u64,
    version: u64,
    /// How many bytes all lines have.
    length: u128,
}

// Written out, so that who drops one calls this, and does not take it apart at each exit.
impl Drop for MetadataLines {
    fn drop(self) {
        let MetadataLines {
            base: _base,
            first: _first,
            fixed: _fixed,
            number: _number,
            last: _last,
            count: _count,
            version: _version,
            length: _length,
        } = self;
    }
}

impl Model for MetadataLines {
    ghost use Rattle.std.specs.Prelude.{nat_lt, List};
    ghost use Rattle.rdf_terms.specs.declared.term.Quad.{Quad};

    ghost Value = { List Quad };

    ghost use Rattle.tpf_base.specs.Addresses.{address_text};
    ghost use Rattle.template_fill.specs.Metadata.{metadata_at};
    ghost use Rattle.hydra_controls.specs.Facts.{addresses_by};
    ghost use Rattle.hydra_controls.specs.Lines.{IsLength};

    ghost view = { λ l. metadata_at l.base (addresses_by (address_text l.first) l.fixed l.number) (nat_lt l.number l.last) (nat_lt 1 l.number) l.count l.version };

    ghost invariant = { λ l. IsLength l.length (metadata_at l.base (addresses_by (address_text l.first) l.fixed l.number) (nat_lt l.number l.last) (nat_lt 1 l.number) l.count l.version) };
}

/// Whether the address of page 1 has more than the base.
fn has_fixed(base: &WebAddress, first: &WebAddress) -> bool
    ensures { result ≡ nat_lt (length (address_text base.now)) (length (address_text first.now)) }
{
    base.text().len() < first.text().len()
}

/// What lines speak of that stand at such addresses.
fn facts_of<'a>(
    base: &'a WebAddress,
    first: &'a WebAddress,
    fixed: bool,
    number: u64,
    last: u64,
    count: u64,
    version: u64,
) -> PageFacts<'a>
    ensures quads { quads_of result ≡ metadata_at base.now (addresses_by (address_text first.now) fixed number)
        (nat_lt number last) (nat_lt 1 number) count version }
    ensures facts { AreFacts result }
{
    PageFacts {
        base: base.text(),
        first: first.text(),
        fixed,
        number,
        last,
        count,
        version,
    }
}

/// Takes back what was appended since `out` had this length, where the writing failed.
#[tactic(auto, using(list_laws::proofs::Begins::cut_back))]
fn taken_back<T>(
    written: Result<T, OutOfMemory>,
    before: usize,
    out: &mut Vec<u8>,
) -> Result<T, OutOfMemory>
    ensures same { result ≡ written }
    ensures ok { OnOk result (out.new.items ≡ out.old.items) }
    ensures err { OnErr result (out.new.items ≡ take before out.old.items) }
{
    if written.is_err() {
        out.truncate(before);
    }
    written
}

impl MetadataLines {
    /// The lines of the metadata of a page of the fragment with these slots, or of what these rows leave
    /// of it (brTPF), which has so many triples, in data of this version (Triple Pattern Fragments,
    /// "Metadata" and "Controls"). No fixed place is a blank node, and the page is 1 or more.
    ///
    /// `OutOfMemory` comes only when memory ran out.
    pub fn new(
        alloc: Global,
        config: &Config,
        slots: &Slots,
        rows: &[Slots],
        page: u64,
        count: u64,
        version: u64,
    ) -> Result<MetadataLines, OutOfMemory>
        requires slots { HasNoBlank slots.now }
        requires rows { AllByRecursion HasNoBlank rows.now }
        requires page { 1 ≤ page }
        ensures { IfOk result (λ lines.
            lines ≡ page_metadata config.now (record { slots = slots.now; rows = rows.now }) page count version) }
    {
        let first = address(alloc, config, slots, rows, 1)?;
        let base = config.base().copy(alloc)?;
        let fixed = has_fixed(&base, &first);
        let last = last_page(count, config.page_size());
        let facts = facts_of(&base, &first, fixed, page, last, count, version);
        let length = facts.total_length();
        Ok(MetadataLines {
            base,
            first,
            fixed,
            number: page,
            last,
            count,
            version,
            length,
        })
    }

    /// What the lines speak of.
    pub fn facts(&self) -> PageFacts<'_>
        ensures quads { quads_of result ≡ self.now }
        ensures facts { AreFacts result }
    {
        facts_of(
            &self.base,
            &self.first,
            self.fixed,
            self.number,
            self.last,
            self.count,
            self.version,
        )
    }

    /// How many lines there are: 19 to 21.
    pub fn count(&self) -> usize
        ensures count { result ≡ length self.now }
        ensures few { result ≤ 21 }
    {
        self.facts().quad_count()
    }

    /// How many bytes the line in this place has, its end LF with it, found without making it.
    pub fn length(&self, i: usize) -> u128
        requires { i < length self.now }
        ensures length { (d : Quad) → result ≡ length (line_in self.now i d) }
        ensures small { result < 2 ^ 70 }
    {
        self.facts().line(i).length()
    }

    /// Appends what is written of the line in this place, and tells whether bytes of the line are left.
    #[tactic(auto, using(list_laws::proofs::Begins::same_begins))]
    fn write_cut(
        &self,
        i: usize,
        from: u128,
        most: usize,
        out: &mut Vec<u8>,
    ) -> Result<bool, OutOfMemory>
        requires { i < length self.now }
        ensures ok { (d : Quad) → OnOk result (out.new.items ≡ out.old.items ++ part_of_line self.now i from most d) }
        ensures more { (d : Quad) → IfOk result (λ more. more ≡ is_left_of_line self.now i from most d) }
        ensures front { Begins out.old.items out.new.items }
    {
        let mut cut = Cut::new(from, most);
        self.facts().line(i).write(&mut cut, out)?;
        Ok(cut.more)
    }

    /// Appends at most `most` bytes of the line in this place, its end LF with it (N-Quads, canonical form),
    /// behind the first `from`, and tells whether there are more. After `OutOfMemory`, which comes only
    /// when memory ran out, `out` is as before.
    #[tactic(auto, using(list_laws::proofs::Begins::cut_back))]
    pub fn write_part(
        &self,
        i: usize,
        from: u128,
        most: usize,
        out: &mut Vec<u8>,
    ) -> Result<bool, OutOfMemory>
        requires { i < length self.now }
        ensures ok { (d : Quad) → OnOk result (out.new.items ≡ out.old.items ++ part_of_line self.now i from most d) }
        ensures more { (d : Quad) → IfOk result (λ more. more ≡ is_left_of_line self.now i from most d) }
        ensures err { OnErr result (out.new.items ≡ out.old.items) }
    {
        let before = out.len();
        let written = self.write_cut(i, from, most, out);
        taken_back(written, before, out)
    }

    /// How many bytes all lines have, their ends LF with them. The number is kept.
    pub fn total_length(&self) -> u128
        ensures length { result ≡ length (lines_text self.now) }
        ensures small { result ≤ 21 * 2 ^ 70 }
    {
        self.length
    }

    fn append_from(&self, place: usize, out: &mut Vec<u8>) -> Result<(), OutOfMemory>
        ensures ok { OnOk result (out.new.items ≡ out.old.items ++ lines_text (drop place self.now)) }
        ensures front { Begins out.old.items out.new.items }
    {
        self.facts().append_from(place, out)
    }

    /// Appends the lines from this place on, their ends LF with them (N-Quads, canonical form). After
    /// `OutOfMemory`, which comes only when memory ran out, `out` is as before.
    #[tactic(auto, using(list_laws::proofs::Begins::cut_back))]
    pub fn write_from(&self, place: usize, out: &mut Vec<u8>) -> Result<(), OutOfMemory>
        ensures ok { OnOk result (out.new.items ≡ out.old.items ++ lines_text (drop place self.now)) }
        ensures err { OnErr result (out.new.items ≡ out.old.items) }
    {
        let before = out.len();
        let written = self.append_from(place, out);
        taken_back(written, before, out)
    }
}
