// What is known of the runs of a program.
ghost use Rattle.rx_verify.specs.Knowing.{Laws};

use choice_laws::{
    any_bodies_fit, finishes_tell, no_other_choice_fits, same_but_for_bodies, turns_but_for_bodies,
};
use rx_check::Checked;
use rx_model::{progresses, reaches};

/// The laws of the runs of a program.
pub(crate) fn known(checked: &Checked)
    ensures { Laws checked.now }
{
    checked.program();
    progresses();
    reaches();
    turns_but_for_bodies();
    same_but_for_bodies();
    any_bodies_fit();
    finishes_tell();
    no_other_choice_fits();
}
