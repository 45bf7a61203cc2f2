// The old children of a list, by their identities.
ghost use Rattle.std.specs.Prelude.{◌≡◌, ℕ, ℤ, ◌<◌, ◌^◌, IfOk, length, map, position};
ghost use Rattle.std.specs.HashMap.{get};
ghost use Rattle.rx_elem.specs.Identity.{at_key, identified, identities, is_same_child, old_places};
ghost use Rattle.rx_keys.specs.IdentityView.{identity_seen};
ghost use Rattle.rx_keys.specs.Found.{KnowsAll, found_in, same_pair};

use crate::identity::{Identity, identities, next_identity, no_counts};
use rx_elem::Element;
use std::alloc::{AllocError, Global};
use std::collections::HashMap;

// Where the child with each key and each number of earlier siblings with that key was.
fn table_of(alloc: Global, ids: &[Identity]) -> Result<HashMap<(i64, u32), u32>, AllocError>
    requires { length ids.now < 2 ^ 32 }
    ensures { IfOk result (λ t. (k : ℤ) (o : ℕ) → get same_pair t (k, o) ≡ found_in (map identity_seen ids.now) (at_key k o)) }
{
    let mut table = HashMap::with_capacity(alloc, ids.len())?;
    for place in 0..ids.len() {
        match ids[place] {
            Identity::Key(key, earlier) => {
                table.insert((key.value(), earlier), place as u32)?;
            }
            Identity::Index(_) => {}
        }
    }
    Ok(table)
}

// Where an identity is found.
fn found_place(ids: &[Identity], table: &HashMap<(i64, u32), u32>, id: Identity) -> Option<u32>
    requires { (k : ℤ) (o : ℕ) → get same_pair table.now (k, o) ≡ found_in (map identity_seen ids.now) (at_key k o) }
    ensures { result ≡ found_in (map identity_seen ids.now) (identity_seen id) }
{
    match id {
        Identity::Key(key, earlier) => table.get(&(key.value(), earlier)).copied(),
        Identity::Index(index) => match ids.get(index as usize) {
            Some(Identity::Index(other)) if *other == index => Some(index),
            _ => None,
        },
    }
}

/// The old children of a list, each found by its identity.
#[derive(Drop)]
pub(crate) struct Known<'a> {
    children: &'a [Element],
    ids: Vec<Identity>,
    table: HashMap<(i64, u32), u32>,
}

impl<'a> Known<'a> {
    /// What is known of these children.
    pub(crate) fn new(alloc: Global, children: &'a [Element]) -> Result<Known<'a>, AllocError>
        requires { length children.now < 2 ^ 32 }
        ensures children { IfOk result (λ known. known.children.now ≡ children.now) }
        ensures knows { IfOk result (λ known. KnowsAll known.children.now known.ids.items known.table) }
    {
        let ids = identities(alloc, children)?;
        let table = table_of(alloc, &ids)?;
        Ok(Known {
            children,
            ids,
            table,
        })
    }

    // Where a new child with this identity was, if it is an old one.
    fn find(&self, id: Identity, child: &Element) -> Option<u32>
        requires { KnowsAll self.now.children.now self.now.ids.items self.now.table }
        ensures { result ≡ position (is_same_child (record { identity = identity_seen id; element = child.now })) (identified self.now.children.now) }
    {
        match found_place(&self.ids, &self.table, id) {
            None => None,
            Some(place) => child
                .is_same_kind(&self.children[place as usize])
                .then_some(place),
        }
    }

    /// Where each new child was, if it is an old one.
    pub(crate) fn places_of(
        &self,
        alloc: Global,
        children: &[Element],
    ) -> Result<Vec<Option<u32>>, AllocError>
        requires few { length children.now < 2 ^ 32 }
        requires knows { KnowsAll self.now.children.now self.now.ids.items self.now.table }
        ensures { IfOk result (λ places. places.items ≡ old_places self.now.children.now children.now) }
    {
        let mut counts = no_counts(alloc, children.len())?;
        let mut places = Vec::with_capacity(alloc, children.len())?;
        for place in 0..children.len() {
            let child = &children[place];
            let id = next_identity(&mut counts, place, child)?;
            places.push(self.find(id, child))?;
        }
        Ok(places)
    }
}
