// The paths of a script's lines.
ghost use Rattle.std.specs.Prelude.{◌≡◌, IfOk, bytes_eq};
ghost use Rattle.rx_script.specs.Readings.{spot_of};

use crate::path::read_path;
use crate::targets::target;
use rx_check::Checked;
use rx_step::Path;
use std::alloc::{AllocError, Global};
use std::marker::Model;

/// A path with its numbers held, and the component that it ends at.
#[derive(Drop)]
pub(crate) struct Spot {
    pub(crate) path: Path,
    pub(crate) target: Option<u32>,
}

impl Spot {
    // The same, with the path by one handle more.
    fn copy(&self) -> Result<Spot, AllocError>
        ensures { IfOk result (λ spot. spot ≡ self.now) }
    {
        let path = self.path.copy()?;
        Ok(Spot {
            path,
            target: self.target,
        })
    }
}

// Whether two words have the same bytes. Words of long paths are compared many bytes at once.
fn is_same_word(one: &[u8], other: &[u8]) -> bool
    ensures { result ≡ bytes_eq one.now other.now }
{
    one == other
}

/// What reads the paths of a script's lines. Contracts see it as the program whose components they name.
///
/// Line after line often names the same instance. So a path whose word comes again is not read again.
#[derive(Drop)]
pub(crate) struct PathReader<'a> {
    checked: &'a Checked,
    /// The word of the last path.
    word: &'a [u8],
    /// What was read of it, if there was one.
    last: Option<Spot>,
}

impl<'a> Model for PathReader<'a> {
    ghost use Rattle.std.specs.Prelude.{◌≡◌, Some, IfSome};
    ghost use Rattle.rx_ast.specs.Syntax as syntax;
    ghost use Rattle.rx_ast.specs.ProgramCodes.{program_code};
    ghost use Rattle.rx_script.specs.Readings.{spot_of};

    ghost Value = { syntax.Program };

    ghost coded = { program_code };

    ghost view = { λ r. r.checked.now };

    ghost invariant = { λ r. IfSome r.last (λ spot. Some spot ≡ spot_of r.checked.now r.word.now) };
}

impl<'a> PathReader<'a> {
    /// No path was read yet.
    pub(crate) fn new(checked: &'a Checked) -> PathReader<'a>
        ensures { result ≡ checked.now }
    {
        PathReader {
            checked,
            word: &[],
            last: None,
        }
    }

    /// The program.
    pub(crate) fn checked(&self) -> &Checked
        ensures { result.now ≡ self.now }
    {
        self.checked
    }

    // The path that a word is, another than the last.
    #[tactic(auto, using(crate::proofs::Spots::spot_none, crate::proofs::Spots::spot_read))]
    fn read_other(&mut self, alloc: Global, word: &'a [u8]) -> Result<Option<Spot>, AllocError>
        ensures read { IfOk result (λ spot. spot ≡ spot_of self.old word.now) }
        ensures same { self.new ≡ self.old }
    {
        let Some(path) = read_path(alloc, word)? else {
            return Ok(None);
        };
        let target = target(self.checked, &path);
        let spot = Spot { path, target };
        let last = spot.copy()?;
        self.word = word;
        self.last = Some(last);
        Ok(Some(spot))
    }

    /// The path that a word is.
    #[tactic(auto, using(crate::proofs::Spots::word_same))]
    pub(crate) fn read(&mut self, alloc: Global, word: &'a [u8]) -> Result<Option<Spot>, AllocError>
        ensures read { IfOk result (λ spot. spot ≡ spot_of self.old word.now) }
        ensures same { self.new ≡ self.old }
    {
        if !is_same_word(word, self.word) {
            return self.read_other(alloc, word);
        }
        match &self.last {
            Some(spot) => Ok(Some(spot.copy()?)),
            None => self.read_other(alloc, word),
        }
    }
}
