// The walk over the tree that surveys a linked net: in the order in which the linker places.

ghost use Rattle.std.specs.Prelude.{◌≡◌, ◌+◌, ◌*◌, ◌≤◌, ◌<◌, ◌^◌, ◌++◌, length};
ghost use Rattle.p3l_base.specs.Limits.{most_processes};
ghost use Rattle.p3l_base.specs.Memory.{IfGiven, OnGiven};
ghost use Rattle.p3l_skel.specs.Counts.{HasLawfulCounts, count_of};
ghost use Rattle.p3l_skel.specs.Lawful.{IsLawfulTree};
ghost use Rattle.p3l_skel.specs.Numbers.{procs};
ghost use Rattle.p3l_link.specs.Counts.{IsCounted};
ghost use Rattle.p3l_link.specs.Node.{IsFit, kind_of};
ghost use Rattle.p3l_fitting.specs.Survey.{HasRoomAfter, base_after, followed, linked_survey, node_survey, own_loops};

use crate::survey::{LoopPlace, Survey};
use p3l_base::{List, NoMemory};
use p3l_link::{NodeTemplate, part_of, template_of};
use p3l_skel::tree::NESTING;
use p3l_skel::{Counts, Tree};
use p3l_template::{Kind, Ports, Site};
use std::alloc::Global;

/// Surveys the linked net of a tree under these counts.
pub fn surveyed(alloc: Global, tree: &Tree, counts: &Counts) -> Result<Survey, NoMemory>
    requires tree { IsLawfulTree tree.now }
    requires counts { HasLawfulCounts tree.now counts.now.list }
    requires procs { procs tree.now counts.now.list 0 ≤ most_processes }
    ensures { IfGiven result (λ survey. survey ≡ linked_survey tree.now counts.now.list) }
{
    let mut survey = Survey::of_ends(alloc, tree)?;
    let at = Ports {
        input: 0,
        output: 1,
    };
    survey_node(alloc, tree, counts, NESTING, 0, 0, &at, &mut survey)?;
    Ok(survey)
}

// The place between two channels, after what is surveyed so far.
fn place_after(survey: &Survey, at: &Ports) -> Site
    requires { HasRoomAfter survey.now 0 0 }
    ensures { result ≡ base_after at.now survey.now }
{
    Site {
        input: at.input,
        output: at.output,
        proc: survey.procs as u32,
        chan: survey.widths.len() as u32,
    }
}

// Adds what a node places between two channels, with all that is below it, `levels` levels at most,
// where tokens outside it have `tags` tags.
fn survey_node(
    alloc: Global,
    tree: &Tree,
    counts: &Counts,
    levels: u32,
    number: u32,
    tags: u32,
    at: &Ports,
    survey: &mut Survey,
) -> Result<(), NoMemory>
    requires lawful { IsLawfulTree tree.now }
    requires counted { IsCounted tree.now (count_of tree.now counts.now.list) levels number }
    requires tags { tags + 2 * levels < 2 ^ 32 }
    requires room { HasRoomAfter survey.old
        (node_survey tree.now (count_of tree.now counts.now.list) levels number tags
        (base_after at.now survey.old)).procs
        (length (node_survey tree.now (count_of tree.now counts.now.list) levels number tags
        (base_after at.now survey.old)).widths) }
    ensures { OnGiven result (survey.new ≡ followed survey.old
        (node_survey tree.now (count_of tree.now counts.now.list) levels number tags
        (base_after at.now survey.old))) }
{
    let template = template_of(tree, counts, number);
    let place = place_after(survey, at);
    let slots = template.slots(alloc, &place)?;
    begin(survey, &template, tree, number, tags, &place)?;
    let inner_tags = tags + template.deeper();
    for slot in slots.as_slice() {
        let part = part_of(tree, number, slot.part);
        let inner = Ports {
            input: slot.input,
            output: slot.output,
        };
        survey_node(
            alloc,
            tree,
            counts,
            levels - 1,
            part,
            inner_tags,
            &inner,
            survey,
        )?;
    }
    close(survey, template.is_loop(), &place)?;
    Ok(())
}

// Adds what a template places itself there, for a node of a tree.
fn begin(
    survey: &mut Survey,
    template: &NodeTemplate,
    tree: &Tree,
    number: u32,
    tags: u32,
    place: &Site,
) -> Result<(), NoMemory>
    requires fit { IsFit template.now }
    requires tags { tags + 2 < 2 ^ 32 }
    requires room { survey.old.procs
        + length ((kind_of template.now).shape.procs place.now) ≤ 1048576 }
    ensures { OnGiven result (survey.new ≡ record survey.old {
      procs = survey.old.procs + length ((kind_of template.now).shape.procs place.now);
      widths = survey.old.widths ++ (kind_of template.now).widths tree.now number tags;
    }) }
{
    survey.procs += template.proc_count();
    template.push_widths(&mut survey.widths, tree, number, tags)
}

// Adds the loop of a node that is placed there, if it is one, behind what was surveyed inside it.
fn close(survey: &mut Survey, is_loop: bool, place: &Site) -> Result<(), NoMemory>
    ensures { OnGiven result (survey.new ≡ record survey.old {
      loops = survey.old.loops
          ++ own_loops is_loop place.now.proc place.now.chan survey.old.procs
          (length survey.old.widths);
    }) }
{
    if !is_loop {
        return Ok(());
    }
    let head = place.proc as usize;
    let chan_from = place.chan as usize;
    let proc_to = survey.procs;
    let chan_to = survey.widths.len();
    survey.loops.push(LoopPlace {
        head,
        tail: head + 1,
        proc_from: head,
        proc_to,
        chan_from,
        chan_to,
    })
}
