// The columns of a result.
ghost use Rattle.std.specs.Prelude.{◌≡◌, IfOk};
ghost use Rattle.std.specs.BTreeMap.{values};
ghost use Rattle.result_json.specs.Results.{name_at, columns_of};

use bgp_core::Query;
use std::alloc::Global;
use std::collections::BTreeMap;
use tpf_base::{OutOfMemory, Text};

/// The text of the name with a number.
pub(crate) fn name_at(names: &[Text], n: u32) -> &str
    ensures { result.now ≡ name_at names.now n }
{
    match names.get(n as usize) {
        Some(name) => name.as_str(),
        None => "",
    }
}

/// The numbers of a map of names, in the order of the names.
fn numbers_of(alloc: Global, firsts: BTreeMap<&str, u32>) -> Result<Vec<u32>, OutOfMemory>
    ensures { IfOk result (λ v. v.items ≡ values firsts.entry) }
{
    Ok(firsts.into_values().collect(alloc)?)
}

/// The selected names by their numbers, in the order of their bytes, each name once: by the number
/// by which it is selected first.
pub(crate) fn columns_of(alloc: Global, query: &Query) -> Result<Vec<u32>, OutOfMemory>
    ensures { IfOk result (λ v. v.items ≡ columns_of query.now) }
{
    let names = query.names();
    let selected = query.selected();
    let mut firsts = BTreeMap::new(alloc);
    // From the back, so that the first number of a name is the one that stays.
    for i in (0..selected.len()).rev() {
        firsts.insert(name_at(names, selected[i]), selected[i])?;
    }
    numbers_of(alloc, firsts)
}
