// All resources of a root.
ghost use Rattle.std.specs.Prelude.{◌≡◌, ℕ, ◌<◌, ◌≤◌, ◌^◌, true, false, length, map, replicate, IfOk, OnOk, OnErr};
ghost use Rattle.rx_hooks.specs.Hooks.{links_with};
ghost use Rattle.rx_resources.specs.Kept.{committed, last_version, opening};
ghost use Rattle.rx_resources.specs.Seen.{is_new, is_news, seen_of};
ghost use Rattle.rx_resources.specs.Store.{asked_at, kept_at, linked_at, resolved_at};

use crate::resource::Resource;
use crate::seen::Seen;
use rx_base::{Awaits, Cut, Int};
use rx_lane::{Lane, Lanes};
use std::alloc::{AllocError, Global};
use std::marker::Model;

/// What a root keeps of the resources of its program, by their numbers in the order of the text.
#[derive(Drop)]
pub struct ResourceStore {
    resources: Vec<Resource>,
}

impl Model for ResourceStore {
    ghost use Rattle.std.specs.Prelude.{List};
    ghost use Rattle.rx_resources.specs.Kept.{Kept};

    ghost Value = { List Kept };

    ghost view = { λ s. s.resources.items };
}

// What is committed of a render with these lanes at this cut is done.
fn commit_all(resources: &mut [Resource], lanes: Lanes, cut: Cut)
    ensures { resources.new ≡ map (committed lanes cut) resources.old }
{
    'committing: for resource in resources.iter_mut() {
        resource.commit(lanes, cut);
    }
}

// Whether the version of a resource that a render saw has a value by now, and had none for it.
fn has_new(resources: &[Resource], seen: &Seen, resource: usize) -> bool
    requires here { resource < length resources.now }
    requires versions { length seen.now.versions ≡ length resources.now }
    requires values { length seen.now.values ≡ length resources.now }
    ensures { result ≡ is_new resources.now seen.now resource }
{
    let version = seen.versions[resource];
    resources[resource].value(version).is_some() && seen.values[resource].is_none()
}

// Whether one of all resources is new.
fn any_new(resources: &[Resource], seen: &Seen) -> bool
    requires versions { length seen.now.versions ≡ length resources.now }
    requires values { length seen.now.values ≡ length resources.now }
    ensures some { result ≡ true → (r : ℕ) × (r < length resources.now) × (is_new resources.now seen.now r ≡ true) }
    ensures none { result ≡ false → (r : ℕ) → r < length resources.now → is_new resources.now seen.now r ≡ false }
{
    for resource in 0..resources.len() {
        if has_new(resources, seen, resource) {
            return true;
        }
    }
    false
}

// Whether one of these is.
fn new_among(resources: &[Resource], seen: &Seen, waits: &Awaits) -> bool
    requires few { length resources.now < 2 ^ 32 }
    requires versions { length seen.now.versions ≡ length resources.now }
    requires values { length seen.now.values ≡ length resources.now }
    ensures some { result ≡ true → (r : ℕ) × (r < length resources.now) × (is_news resources.now seen.now waits.now r ≡ true) }
    ensures none { result ≡ false → (r : ℕ) → r < length resources.now → is_news resources.now seen.now waits.now r ≡ false }
{
    for resource in 0..resources.len() {
        if waits.has(resource as u32) && has_new(resources, seen, resource) {
            return true;
        }
    }
    false
}

impl ResourceStore {
    /// So many resources at the start of a root, with room for the first value of each.
    ///
    /// # Errors
    ///
    /// Only if out of memory.
    pub fn new(alloc: Global, count: usize) -> Result<ResourceStore, AllocError>
        ensures { IfOk result (λ s. s ≡ replicate count opening) }
    {
        let mut resources = Vec::with_capacity(alloc, count)?;
        'resources: for _resource in 0..count {
            resources.push(Resource::new(alloc)?)?;
        }
        Ok(ResourceStore { resources })
    }

    /// What is kept of a resource.
    pub fn get(&self, resource: u32) -> &Resource
        requires { resource < length self.now }
        ensures { result.now ≡ kept_at self.now resource }
    {
        &self.resources[resource as usize]
    }

    /// Asks for another version of a resource by the update of this number, and takes the room for its value. An `Err` changes
    /// nothing.
    ///
    /// # Errors
    ///
    /// Only if out of memory.
    pub fn refresh(&mut self, resource: u32, number: u64, lane: Lane) -> Result<(), AllocError>
        requires within { resource < length self.old }
        requires room { last_version (kept_at self.old resource) < 2 ^ 62 }
        ensures done { OnOk result (self.new ≡ asked_at number lane resource self.old) }
        ensures same { OnErr result (self.new ≡ self.old) }
    {
        let resource = &mut self.resources[resource as usize];
        resource.refresh(number, lane)
    }

    /// Links the lane of a transition with those that a resource links and that are pending still, and gives all of them (react.dev,
    /// startTransition).
    pub fn link(&mut self, resource: u32, lane: Lane, pending: Lanes) -> Lanes
        requires { resource < length self.old }
        ensures linked { self.new ≡ linked_at lane pending resource self.old }
        ensures lanes { result ≡ links_with lane pending (kept_at self.old resource).linked }
    {
        let resource = &mut self.resources[resource as usize];
        resource.link(lane, pending)
    }

    /// The next version of a resource gets its value. There is room for it, if it was asked for.
    pub fn resolve(&mut self, resource: u32, value: Int)
        requires within { resource < length self.old }
        requires asked { length (kept_at self.old resource).values ≤ last_version (kept_at self.old resource) }
        ensures { self.new ≡ resolved_at value resource self.old }
    {
        let resource = &mut self.resources[resource as usize];
        resource.resolve(value);
    }

    /// What a render with these lanes at this cut included is done.
    pub fn commit(&mut self, lanes: Lanes, cut: Cut)
        ensures { self.new ≡ map (committed lanes cut) self.old }
    {
        commit_all(&mut self.resources, lanes, cut);
    }

    /// What a render with these lanes at this cut sees, if it begins now.
    ///
    /// # Errors
    ///
    /// Only if out of memory.
    pub fn seen(&self, alloc: Global, lanes: Lanes, cut: Cut) -> Result<Seen, AllocError>
        ensures { IfOk result (λ seen. seen ≡ seen_of lanes cut self.now) }
    {
        let mut seen = Seen {
            versions: Vec::with_capacity(alloc, self.resources.len())?,
            values: Vec::with_capacity(alloc, self.resources.len())?,
            refreshes: false,
        };
        'seeing: for resource in &self.resources {
            let version = resource.version(lanes, cut);
            seen.versions.push(version)?;
            seen.values.push(resource.value(version))?;
            seen.refreshes = seen.refreshes || version != resource.done();
        }
        Ok(seen)
    }

    /// Whether the version of some resource that a render saw has a value by now, and had none for it.
    pub fn is_any_new(&self, seen: &Seen) -> bool
        requires versions { length seen.now.versions ≡ length self.now }
        requires values { length seen.now.values ≡ length self.now }
        ensures some { result ≡ true → (r : ℕ) × (r < length self.now) × (is_new self.now seen.now r ≡ true) }
        ensures none { result ≡ false → (r : ℕ) → r < length self.now → is_new self.now seen.now r ≡ false }
    {
        any_new(&self.resources, seen)
    }

    /// The same of one of these resources.
    pub fn is_new(&self, seen: &Seen, waits: &Awaits) -> bool
        requires few { length self.now < 2 ^ 32 }
        requires versions { length seen.now.versions ≡ length self.now }
        requires values { length seen.now.values ≡ length self.now }
        ensures some { result ≡ true → (r : ℕ) × (r < length self.now) × (is_news self.now seen.now waits.now r ≡ true) }
        ensures none { result ≡ false → (r : ℕ) → r < length self.now → is_news self.now seen.now waits.now r ≡ false }
    {
        new_among(&self.resources, seen, waits)
    }
}
