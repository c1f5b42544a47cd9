// The places of rows by the terms of some names.
ghost use Rattle.std.specs.Prelude.{◌≡◌, ◌++◌, ◌∷◌, [], IfOk, OnOk, None, true, is_some};
ghost use Rattle.std.specs.BTreeMap.{get};
ghost use Rattle.row_algebra.specs.Finding.{Adds, IsIndexOf, listed};

use crate::key::{Key, key_of};
use bgp_core::Row;
use std::alloc::Global;
use std::collections::BTreeMap;
use std::marker::Model;
use text_base::OutOfMemory;

/// Places of a list, as they were added.
#[derive(Drop)]
pub struct Bucket {
    places: Vec<usize>,
}

impl Model for Bucket {
    ghost use Rattle.std.specs.Prelude.{ℕ, List};

    ghost Value = { List ℕ };

    ghost view = { λ b. b.places.items };
}

impl Bucket {
    fn new(alloc: Global, place: usize) -> Result<Bucket, OutOfMemory>
        ensures { IfOk result (λ b. b ≡ place ∷ []) }
    {
        let mut places = Vec::with_capacity(alloc, 1)?;
        places.push(place)?;
        Ok(Bucket { places })
    }

    fn add(&mut self, place: usize) -> Result<(), OutOfMemory>
        ensures { OnOk result (self.new ≡ self.old ++ place ∷ []) }
    {
        self.places.push(place)?;
        Ok(())
    }

    fn places(&self) -> &[usize]
        ensures { result.now ≡ self.now }
    {
        self.places.as_slice()
    }
}

/// Adds a place to those of a key that has some.
fn add_known<K: Ord + Drop>(
    index: &mut BTreeMap<K, Bucket>,
    key: &K,
    place: usize,
) -> Result<(), OutOfMemory>
    requires { is_some (get K.cmp index.old key.now) ≡ true }
    ensures { OnOk result (Adds K.cmp key.now place index.old index.new) }
{
    match index.get_mut(key) {
        Some(bucket) => bucket.add(place),
        None => unreachable!(),
    }
}

/// Adds a key that has no place yet, with its first.
fn add_first<K: Ord + Drop>(
    alloc: Global,
    index: &mut BTreeMap<K, Bucket>,
    key: K,
    place: usize,
) -> Result<(), OutOfMemory>
    requires { get K.cmp index.old key ≡ None }
    ensures { OnOk result (Adds K.cmp key place index.old index.new) }
{
    let bucket = Bucket::new(alloc, place)?;
    index.insert(key, bucket)?;
    Ok(())
}

/// Adds a place to those of a key.
fn add_place<K: Ord + Drop>(
    alloc: Global,
    index: &mut BTreeMap<K, Bucket>,
    key: K,
    place: usize,
) -> Result<(), OutOfMemory>
    ensures { OnOk result (Adds K.cmp key place index.old index.new) }
{
    if index.contains_key(&key) {
        add_known(index, &key, place)
    } else {
        add_first(alloc, index, key, place)
    }
}

/// The places of the rows of a list by the terms of some names.
pub fn index_of<'a>(
    alloc: Global,
    names: &[u32],
    rows: &'a [Row],
) -> Result<BTreeMap<Key<'a>, Bucket>, OutOfMemory>
    ensures { IfOk result (λ index. IsIndexOf names.now rows.entry.now index) }
{
    let mut index = BTreeMap::new(alloc);
    for (place, row) in rows.iter().enumerate() {
        let key = key_of(alloc, names, row)?;
        add_place(alloc, &mut index, key, place)?;
    }
    Ok(index)
}

/// The places of a key; none where it has none.
pub fn places_of<'m, K: Ord>(index: &'m BTreeMap<K, Bucket>, key: &K) -> &'m [usize]
    ensures { result.now ≡ listed (get K.cmp index.entry.now key.now) }
{
    match index.get(key) {
        Some(bucket) => bucket.places(),
        None => &[],
    }
}
