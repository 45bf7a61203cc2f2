// The line that sums up a run.
ghost use Rattle.std.specs.Prelude.{◌≡◌, ◌++◌, string_bytes, decimal, OnOk, IfOk};
ghost use Rattle.rx_gen.specs.Generated as generated;

use crate::pieces::put_number;
use rx_base::Str;
use std::alloc::{AllocError, Global};

/// The line that sums up a run of so many rounds, with its end: the dispatches that were accepted, the commits, the nodes
/// of the final tree, the number of bytes of the final tree's lines, and the sum of these bytes modulo 2^32.
///
/// # Errors
///
/// Only if out of memory.
pub fn summary(
    alloc: Global,
    n: u32,
    accepted: u64,
    commits: u64,
    nodes: u64,
    tree: &[u8],
) -> Result<Str, AllocError>
    ensures { IfOk result (λ line. line ≡ generated.summary_text n accepted commits nodes tree.now) }
{
    let mut line = String::new(alloc);
    put_named(&mut line, "gen ", n as u64)?;
    put_named(&mut line, " dispatches ", accepted)?;
    put_named(&mut line, " commits ", commits)?;
    put_named(&mut line, " nodes ", nodes)?;
    put_named(&mut line, " bytes ", tree.len() as u64)?;
    put_named(&mut line, " sum ", checksum(tree))?;
    line.push_str("\n")?;
    Ok(Str::from_string(line))
}

// A number behind its name.
fn put_named(line: &mut String, name: &str, number: u64) -> Result<(), AllocError>
    ensures { OnOk result (string_bytes line.new ≡ string_bytes line.old ++ name.now ++ decimal number) }
{
    line.push_str(name)?;
    put_number(line, number)
}

// The sum of bytes modulo 2^32.
fn checksum(bytes: &[u8]) -> u64
    ensures { result ≡ generated.checksum bytes.now }
{
    let mut sum: u64 = 0;
    'bytes: for byte in bytes {
        sum = (sum + *byte as u64) % (1 << 32);
    }
    sum
}
