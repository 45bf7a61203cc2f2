// The generated program, and its script round by round.
ghost use Rattle.std.specs.Prelude.{◌≡◌, [], ◌++◌, ◌<◌, ◌^◌, ◌%◌, nat_eq, if◌then◌else◌, string_bytes, codes, OnOk, IfOk};
ghost use Rattle.rx_gen.specs.Generated as generated;

use crate::pieces::{put_end, put_number};
use rx_base::Str;
use std::alloc::{AllocError, Global};

// The program.
const PROGRAM: &str =
    "function add(s, a) { return s + a; }\nfunction Cell({i}) {\n  const [v, setV] = useState(i);\n  return <b>{v}</b>;\n}\nfunction App() {\n  const [n, setN] = useState(32);\n  return <main>{for (i < n, 64) <Cell key={i} i={i}/>}</main>;\n}\n";

/// A program and a script of so many rounds, from 1 to 1,000, for it.
///
/// # Errors
///
/// Only if out of memory.
pub fn generate(alloc: Global, n: u32) -> Result<(Str, Str), AllocError>
    ensures program { IfOk result (λ texts. texts.0 ≡ generated.program_text) }
    ensures script { IfOk result (λ texts. texts.1 ≡ generated.script_text n) }
{
    let program = write_program(alloc)?;
    let script = write_script(alloc, n)?;
    Ok((program, script))
}

// The program.
fn write_program(alloc: Global) -> Result<Str, AllocError>
    ensures { IfOk result (λ text. text ≡ generated.program_text) }
{
    Str::new(alloc, PROGRAM)
}

// The script.
fn write_script(alloc: Global, n: u32) -> Result<Str, AllocError>
    ensures { IfOk result (λ text. text ≡ generated.script_text n) }
{
    let mut script = String::from_str(alloc, "flush\n")?;
    let mut drawn = n as u64;
    'rounds: for done in 0..n {
        drawn = next_drawn(drawn);
        put_round(&mut script, n, done + 1, drawn / 65536)?;
    }
    Ok(Str::from_string(script))
}

// The number that is drawn behind another one.
fn next_drawn(x: u64) -> u64
    requires { x < 2 ^ 32 }
    ensures { result ≡ generated.next_drawn x }
{
    (x * 1103515245 + 12345) % (1 << 31)
}

// The lines of a round.
fn put_round(script: &mut String, n: u32, round: u32, choice: u64) -> Result<(), AllocError>
    ensures { OnOk result (string_bytes script.new ≡ string_bytes script.old ++ generated.round_lines n round choice) }
{
    put_resizing(script, round, choice)?;
    put_adding(script, choice)?;
    put_flush(script, n, round)
}

// The line that sets how many cells there are, in each eighth round.
fn put_resizing(script: &mut String, round: u32, choice: u64) -> Result<(), AllocError>
    ensures { OnOk result (string_bytes script.new ≡ string_bytes script.old ++ (if nat_eq (round % 8) 0 then generated.resizing choice else [])) }
{
    if round % 8 != 0 {
        return Ok(());
    }
    put_size(script, choice)
}

// The line that sets how many cells there are.
fn put_size(script: &mut String, choice: u64) -> Result<(), AllocError>
    ensures { OnOk result (string_bytes script.new ≡ string_bytes script.old ++ generated.resizing choice) }
{
    script.push_str("set sync App n ")?;
    put_number(script, choice % 65)?;
    put_end(script)
}

// The lane that is chosen.
fn lane_word(choice: u64) -> &'static str
    ensures { result.now ≡ generated.lane_word choice }
{
    match choice % 4 {
        0 => "sync",
        1 => "input",
        2 => "default",
        _ => "transition",
    }
}

// The path to a cell.
fn put_cell(script: &mut String, cell: u64) -> Result<(), AllocError>
    ensures { OnOk result (string_bytes script.new ≡ string_bytes script.old ++ generated.cell_path cell) }
{
    script.push_str("App/Cell")?;
    if cell != 0 {
        script.push_str("@")?;
        put_number(script, cell)?;
    }
    Ok(())
}

// What is added to a cell's state.
fn put_adding(script: &mut String, choice: u64) -> Result<(), AllocError>
    ensures { OnOk result (string_bytes script.new ≡ string_bytes script.old ++ generated.adding choice) }
{
    script.push_str("call ")?;
    script.push_str(lane_word(choice))?;
    script.push_str(" ")?;
    put_cell(script, choice / 4 % 40)?;
    script.push_str(" v add ")?;
    put_number(script, choice % 1000)?;
    script.push_str("\n")
}

// Whether a round ends with a flush.
fn is_flushed(n: u32, round: u32) -> bool
    ensures { result ≡ generated.is_flushed n round }
{
    round % 4 == 0 || round == n
}

// The flush at the end of each fourth round and the last one.
fn put_flush(script: &mut String, n: u32, round: u32) -> Result<(), AllocError>
    ensures { OnOk result (string_bytes script.new ≡ string_bytes script.old ++ (if generated.is_flushed n round then codes "flush\n" else [])) }
{
    if !is_flushed(n, round) {
        return Ok(());
    }
    script.push_str("flush\n")
}
