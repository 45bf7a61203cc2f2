// A page of a run.
ghost use Rattle.std.specs.Prelude.{◌≡◌, ◌<◌, ◌^◌, length, IfOk, OnOk};
ghost use Rattle.rx_model.specs.State.{opening};
ghost use Rattle.rx_root.specs.Stands.{Stands};
ghost use Rattle.rx_kept.specs.Taking.{AllCanTake};
ghost use Rattle.run_page.specs.Books.{empty_book};
ghost use Rattle.fiber_view.specs.Pages.{IsBook, IsPage};

use crate::steps::{put_steps, view_of};
use run_page::{Book, page as page_of};
use rx_base::Steps;
use rx_check::Checked;
use rx_report::Report;
use rx_root::Root;
use rx_step::Step;
use std::alloc::{AllocError, Global};
use std::sync::ledger::Ledger;

// The title of the section before the first step.
const START: &[u8] = b"before the first";

// Puts the view of the state before the first step into an empty book, and the views of the steps.
fn put_run<L: Ledger>(
    book: &mut Book,
    alloc: Global,
    root: &mut Root,
    script: &[Step],
    steps: &mut Steps<L>,
) -> Result<(), AllocError>
    requires empty { book.old ≡ empty_book }
    requires stands { Stands root.old.rendering.program opening root.old }
    requires fits { AllCanTake root.old.rendering.program script.now }
    requires few { length script.now < 2 ^ 32 }
    ensures { OnOk result (IsBook root.old.rendering.program script.now book.new) }
{
    let mut log = Report::new(alloc, true, true);
    let title = Vec::from_slice(alloc, START)?;
    let first = view_of(alloc, root, title, Vec::new(alloc), false, &mut log)?;
    book.put(&first)?;
    put_steps(book, alloc, root, script, &mut log, steps)
}

// The book of a run of a program from the start.
fn book_of<L: Ledger>(
    alloc: Global,
    checked: Checked,
    script: &[Step],
    steps: &mut Steps<L>,
) -> Result<Book, AllocError>
    requires fits { AllCanTake checked script.now }
    requires few { length script.now < 2 ^ 32 }
    ensures { IfOk result (λ book. IsBook checked script.now book) }
{
    let mut book = Book::new(alloc);
    let mut root = Root::new(alloc, checked)?;
    put_run(&mut book, alloc, &mut root, script, steps)?;
    Ok(book)
}

/// The page of a program and the steps of its script: the input, a link for each step, and a section for each, with the lines
/// that it writes and the state after it.
///
/// # Errors
///
/// Only if out of memory.
pub(crate) fn page<L: Ledger>(
    alloc: Global,
    input: &[u8],
    checked: Checked,
    script: &[Step],
    steps: &mut Steps<L>,
) -> Result<Vec<u8>, AllocError>
    requires fits { AllCanTake checked script.now }
    requires few { length script.now < 2 ^ 32 }
    ensures { IfOk result (λ page. IsPage checked script.now input.now page.items) }
{
    let book = book_of(alloc, checked, script, steps)?;
    page_of(alloc, input, &book)
}
