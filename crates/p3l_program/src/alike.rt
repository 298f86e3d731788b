// Runs of the images that `compile` writes.

ghost use Rattle.p3l_program.specs.Alike.{EveryImageHasItsProgramsNetwork, EveryImageRunsAsItsProgram};

use p3l_body_laws::resolved_serve;
use p3l_image::coding::image_begins_no_other;

/// An image that was made of a program, and is no longer than images may be, has the network of the
/// program: so the two run alike on all items under all schedules.
pub fn every_image_has_its_programs_network()
    ensures { EveryImageHasItsProgramsNetwork }
{
    resolved_serve();
    image_begins_no_other();
}

/// A law of images: if files hold a program and the image that was made of it, `exec` of the image
/// writes, reports and answers what `run` of the program does, with the same schedule.
pub fn every_image_runs_as_its_program()
    ensures { EveryImageRunsAsItsProgram }
{
    every_image_has_its_programs_network();
}
