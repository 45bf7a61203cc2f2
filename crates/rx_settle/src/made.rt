// The hooks of new instances.
ghost use Rattle.std.specs.Prelude.{IfOk, OnOk, length};
ghost use Rattle.rx_settle.specs.Made.{AreMadeFor, HasMade};

use rx_hooks::Hooks;
use rx_spots::Mounted;
use std::alloc::{AllocError, Global};

/// The hooks of a new instance, before a commit keeps them.
#[derive(Drop)]
pub(crate) struct NewHooks {
    pub(crate) number: u64,
    pub(crate) hooks: Hooks,
}

// Mounts the hooks of an instance, if it is new.
fn mount_one(
    alloc: Global,
    instance: &Mounted,
    first: u64,
    made: &mut Vec<NewHooks>,
) -> Result<(), AllocError>
    ensures { OnOk result (HasMade first instance.now made.old.items made.new.items) }
{
    let number = instance.number();
    if number < first {
        return Ok(());
    }
    let hooks = Hooks::mount(alloc, instance.initials().as_slice())?;
    made.push(NewHooks { number, hooks })?;
    Ok(())
}

/// The hooks of the new instances of a tree, at their mount: those with numbers from the first on.
///
/// # Errors
///
/// Only if out of memory.
pub(crate) fn mount_new(
    alloc: Global,
    instances: &[Mounted],
    first: u64,
) -> Result<Vec<NewHooks>, AllocError>
    ensures { IfOk result (λ made. AreMadeFor first instances.now (length instances.now) made.items) }
{
    let mut made = Vec::new(alloc);
    'mounting: for instance in instances {
        mount_one(alloc, instance, first, &mut made)?;
    }
    Ok(made)
}
