//! The text of the trace of a run.
ghost use Rattle.std.specs.Prelude.{◌≡◌, ◌++◌, IfOk, OnOk, codes, decimal, flat_map};
ghost use Rattle.process_build.specs.Traces.{args_of, end_field, end_word, event_after, event_of, events_of, named_fields, number_field, path_field, timed_fields, trace_of};

use crate::process::lease::{EndedLease, drv_name};
use itoa::Buffer;
use std::alloc::{AllocError, Global};

/// The trace of these leases in Chrome's trace event format: a JSON object with a complete event
/// for each, in their order. Names and paths stand as they are, since no byte of a store path
/// needs an escape in a JSON string. Want of memory is the only error. Costs time in proportion to
/// the text.
pub fn trace_text(alloc: Global, leases: &[EndedLease]) -> Result<Vec<u8>, AllocError>
    ensures { IfOk result (λ text. text.items ≡ trace_of leases.now) }
{
    let mut text = Vec::new(alloc);
    text.extend_from_slice(b"{\"traceEvents\":[")?;
    write_events(leases, &mut text)?;
    text.extend_from_slice(b"]}\n")?;
    Ok(text)
}

// Adds the events of some leases.
#[tactic(auto, unfolding(crate::specs::Traces::events_of))]
fn write_events(leases: &[EndedLease], out: &mut Vec<u8>) -> Result<(), AllocError>
    ensures { OnOk result (out.new.items ≡ out.old.items ++ events_of leases.now) }
{
    match leases {
        [] => Ok(()),
        [first, more @ ..] => {
            write_event(first, out)?;
            write_more(more, out)
        }
    }
}

// Adds the events that stand after the first one.
fn write_more(leases: &[EndedLease], out: &mut Vec<u8>) -> Result<(), AllocError>
    ensures { OnOk result (out.new.items ≡ out.old.items ++ flat_map event_after leases.now) }
{
    'leases: for lease in leases {
        write_next(lease, out)?;
    }
    Ok(())
}

// Adds an event that stands after another.
#[tactic(auto, unfolding(crate::specs::Traces::event_after))]
fn write_next(lease: &EndedLease, out: &mut Vec<u8>) -> Result<(), AllocError>
    ensures { OnOk result (out.new.items ≡ out.old.items ++ event_after lease.now) }
{
    out.extend_from_slice(b",\n")?;
    write_event(lease, out)
}

// Adds the event of a lease.
#[tactic(auto, unfolding(crate::specs::Traces::event_of))]
fn write_event(lease: &EndedLease, out: &mut Vec<u8>) -> Result<(), AllocError>
    ensures { OnOk result (out.new.items ≡ out.old.items ++ event_of lease.now) }
{
    write_named(lease, out)?;
    write_timed(lease, out)?;
    write_args(lease, out)
}

// Adds the name of an event and its kind.
#[tactic(auto, unfolding(crate::specs::Traces::named_fields))]
fn write_named(lease: &EndedLease, out: &mut Vec<u8>) -> Result<(), AllocError>
    ensures { OnOk result (out.new.items ≡ out.old.items ++ named_fields lease.now) }
{
    out.extend_from_slice(b"{\"name\":\"")?;
    out.extend_from_slice(drv_name(&lease.path))?;
    out.extend_from_slice(b"\",\"ph\":\"X\",\"pid\":1")
}

// Adds the worker of an event and its times.
#[tactic(auto, unfolding(crate::specs::Traces::timed_fields))]
fn write_timed(lease: &EndedLease, out: &mut Vec<u8>) -> Result<(), AllocError>
    ensures { OnOk result (out.new.items ≡ out.old.items ++ timed_fields lease.now) }
{
    write_number(b",\"tid\":", lease.times.worker as u64, out)?;
    write_number(b",\"ts\":", lease.times.start, out)?;
    write_number(b",\"dur\":", lease.times.length, out)
}

// Adds the arguments of an event, and ends it.
#[tactic(auto, unfolding(crate::specs::Traces::args_of))]
fn write_args(lease: &EndedLease, out: &mut Vec<u8>) -> Result<(), AllocError>
    ensures { OnOk result (out.new.items ≡ out.old.items ++ args_of lease.now) }
{
    out.extend_from_slice(b",\"args\":{")?;
    write_lease(lease, out)?;
    write_end(lease, out)?;
    write_path(lease, out)
}

// Adds the number of a lease.
#[tactic(auto, unfolding(crate::specs::Traces::number_field))]
fn write_lease(lease: &EndedLease, out: &mut Vec<u8>) -> Result<(), AllocError>
    ensures { OnOk result (out.new.items ≡ out.old.items ++ number_field lease.now) }
{
    write_number(b"\"lease\":", lease.times.number, out)
}

// Adds how a lease ended.
#[tactic(auto, unfolding(crate::specs::Traces::end_field))]
fn write_end(lease: &EndedLease, out: &mut Vec<u8>) -> Result<(), AllocError>
    ensures { OnOk result (out.new.items ≡ out.old.items ++ end_field lease.now) }
{
    write_between(b",\"ended\":\"", end_word(lease.is_good), out)?;
    out.extend_from_slice(b"\"")
}

// Adds the path of an event's derivation, and ends the event.
#[tactic(auto, unfolding(crate::specs::Traces::path_field))]
fn write_path(lease: &EndedLease, out: &mut Vec<u8>) -> Result<(), AllocError>
    ensures { OnOk result (out.new.items ≡ out.old.items ++ path_field lease.now) }
{
    write_between(b",\"path\":\"", lease.path.text(), out)?;
    out.extend_from_slice(b"\"}}")
}

// The word for how a lease ended.
#[tactic(auto, unfolding(crate::specs::Traces::end_word))]
fn end_word(is_good: bool) -> &'static [u8]
    ensures { result.now ≡ end_word is_good }
{
    if is_good { b"built" } else { b"failed" }
}

// Adds some bytes and a number.
fn write_number(front: &[u8], number: u64, out: &mut Vec<u8>) -> Result<(), AllocError>
    ensures { OnOk result (out.new.items ≡ out.old.items ++ front.now ++ decimal number) }
{
    write_between(front, Buffer::new().format(number).as_bytes(), out)
}

// Adds some bytes and a text.
fn write_between(front: &[u8], text: &[u8], out: &mut Vec<u8>) -> Result<(), AllocError>
    ensures { OnOk result (out.new.items ≡ out.old.items ++ front.now ++ text.now) }
{
    out.extend_from_slice(front)?;
    out.extend_from_slice(text)
}
