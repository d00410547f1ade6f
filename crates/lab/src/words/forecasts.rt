//! What is known of a plan's derivations before a run, forecasts, and the words of reports.
use super::books::{opening, system};
use super::derivations::node_of;
use crate::give::{Appended, Give};
use crate::line::{Line, as_text, halves, number_of};
use crate::stop::{Found, Stop, Taken, call, tried};
use crate::teller::Teller;
use crate::world::World;
use run_report::{
    Forecast, marked_by_path, write_name, write_outputs, write_path_line, write_refusal,
    write_refused, write_with_number, write_with_string, write_with_value,
};
use run_states::{Refusal, mark, preconditions_of, wanted_of};

/// Takes a line, if its call is one of these. `write_refused TEXT PLAN NUMBER WORD CAUSE` and the
/// like add words to a kept text.
pub(crate) fn take(teller: &mut Teller<'_>, world: &mut World, line: &Line<'_>) -> Found {
    any_of! { teller, world, line; of_plans, of_words }
}

fn of_plans(teller: &mut Teller<'_>, world: &mut World, line: &Line<'_>) -> Found {
    words! { teller, world, line;
        "write_path_line" (mut out = copy 0, (plan, d) = node 1, word = text 3)
            => Appended(write_path_line(word, plan.path(d), &mut out), out);
        "write_outputs" (mut out = copy 0, (plan, d) = node 1)
            => Appended(write_outputs(plan.output_paths(d), &mut out), out);
        "write_refused" (mut out = copy 0, (plan, d) = node 1, word = text 3, cause = cause 4)
            => Appended(write_refused(word, plan, plan.path(d), plan.drv(d), cause, &mut out), out);
        "write_refusal" (mut out = copy 0, (plan, d) = node 1, cause = cause 3)
            => Appended(write_refusal(plan, plan.drv(d), cause, &mut out), out);
    }
}

fn of_words(teller: &mut Teller<'_>, world: &mut World, line: &Line<'_>) -> Found {
    words! { teller, world, line;
        "write_name" (mut out = copy 0, word = text 1)
            => Appended(write_name(word, &mut out), out);
        "write_with_number" (mut out = copy 0, word = text 1, number = number 2)
            => Appended(write_with_number(word, number, &mut out), out);
        "write_with_value" (mut out = copy 0, word = text 1, value = text 2)
            => Appended(write_with_value(word, value, &mut out), out);
        "write_with_string" (mut out = copy 0, word = text 1, value = text 2)
            => Appended(write_with_string(word, value, &mut out), out);
        do "preconditions" => preconditions(teller, world, line);
        do "marked" => marked(teller, world, line);
        do "forecast" => forecast(teller, world, line);
    }
}

// `preconditions PLAN JOURNAL SYSTEM`: how the derivations stand, and which are wanted.
fn preconditions(teller: &mut Teller<'_>, world: &World, line: &Line<'_>) -> Taken {
    let plan = world.plans.get(line.argument(0))?;
    let journal = world.journals.get(line.argument(1))?;
    let system = system(teller, world, line)?;
    let preconditions = tried!(teller, "preconditions_of" =>
        preconditions_of(world.alloc, plan, journal, &system))?;
    if preconditions.len() != plan.len() {
        return Err(Stop::Lost("too few preconditions"));
    }
    let wanted = tried!(teller, "wanted_of" => wanted_of(world.alloc, plan, &preconditions))?;
    teller.say(format_args!("{preconditions:?}"));
    teller.say(format_args!("{wanted:?}"));
    Ok(())
}

// `marked PLAN NUMBER NUMBER`: the derivations with these numbers are marked, and listed by path.
fn marked(teller: &mut Teller<'_>, world: &World, line: &Line<'_>) -> Taken {
    let plan = world.plans.get(line.argument(0))?;
    let (first, second) = (line.number(1).unwrap_or(0), line.number(2).unwrap_or(0));
    if first >= plan.len() || second >= plan.len() {
        return Err(Stop::NotAllowed);
    }
    let mut marks = vec![in world.alloc; false; plan.len()]?;
    call!(teller, "mark" => mark(&mut marks, &[first, second]));
    let all = tried!(teller, "marked_by_path" => marked_by_path(world.alloc, plan, &marks))?;
    for one in &all {
        teller.say(format_args!("{} {}", one.number, one.path.as_str()));
    }
    Ok(())
}

// The cause that a word is, as `MissingSource(0)`; one that is none of the others is `Unsupported`.
fn cause_of(word: &[u8]) -> Refusal {
    let (name, rest) = halves(word, b'(');
    let number = rest.strip_suffix(b")").and_then(number_of).unwrap_or(0);
    match as_text(name) {
        "WrongSystem" => Refusal::WrongSystem,
        "MissingFeature" => Refusal::MissingFeature(number),
        "MissingSource" => Refusal::MissingSource(number),
        "InputNotRealised" => Refusal::InputNotRealised(number),
        "PartlyValid" => Refusal::PartlyValid(number),
        _ => Refusal::Unsupported,
    }
}

// `forecast PLAN JOURNAL SYSTEM`.
fn forecast(teller: &mut Teller<'_>, world: &World, line: &Line<'_>) -> Taken {
    let (plan, journal, system) = opening(teller, world, line)?;
    let forecast = tried!(teller, "Forecast::open" =>
        Forecast::open(world.alloc, plan, journal, system))?;
    let text = tried!(teller, "Forecast::text" => forecast.text())?;
    let picture = tried!(teller, "Forecast::picture" => forecast.picture())?;
    teller.lines(&text);
    teller.lines(&picture);
    tell(teller, &forecast);
    Ok(())
}

// Tells what is foretold of each derivation, and of the roots.
fn tell(teller: &mut Teller<'_>, forecast: &Forecast) {
    const WHOLE: &str = "Forecast::plan Forecast::is_whole";
    let (count, is_whole) = call!(teller, WHOLE => (forecast.plan().len(), forecast.is_whole()));
    for d in 0..count {
        let state = call!(teller, "Forecast::state" => forecast.state(d));
        teller.say(format_args!("{state:?}"));
    }
    teller.say(format_args!("whole {is_whole}"));
}
