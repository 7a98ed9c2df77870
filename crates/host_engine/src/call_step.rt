//! The step `call`: runtime code is called as by the operating system.
ghost use Rattle.std.specs.Prelude.{◌≡◌, ◌∷◌, [], IfOk, length, map};
ghost use Rattle.host_engine.specs.declared.course.Course.TheVariants.{GoesOn};
ghost use Rattle.guest_memory.specs.Pages.{bytes_of as memory_bytes};
ghost use Rattle.guest_memory.specs.Runs.{bytes_from};
ghost use Rattle.firmware_core.specs.Jobs.{job_of};
ghost use Rattle.host_script.specs.Forms.{IsCall, IsTarget};
ghost use Rattle.record_text.specs.declared.line.Line.TheVariants as lines;
ghost use Rattle.host_engine.specs.Jobs.{line_bytes, bytes_of, Puts};
ghost use Rattle.host_engine.specs.ScriptRuns.{called_name, behind_place, kept_at, called_at, argument_of, buffer_of, bytes_line, call_line, course_of, call_over, shown_lines, with_shown, spec_of, call_begun, call_comes_to, call_made, Made};

use crate::course::Course;
use crate::job::{Stop, run_job, say};
use crate::script_run::{Running, copy_of, course_of, halt_line, place_of, put_stop};
use firmware_core::{CallBuffer, CallSpec, Job, JobEnd, begin};
use guest_memory::GuestMemory;
use host_script::{Arg, Buffer, CallStep, ImageSpec, Shown, Target};
use map_faults::Kept;
use page_alloc::Layout;
use record_text::{Line, service_name};
use std::alloc::{AllocError, Global};
use uh_base::{Bytes, Sink, Text};

/// The name of what is called.
fn called_name(alloc: Global, target: &Target) -> Result<Text, AllocError>
    ensures { IfOk result (λ name. name ≡ called_name target.now) }
{
    match target {
        Target::Image { image, .. } => Text::new(alloc, image.as_str()),
        Target::Service { slot } => Text::new(alloc, service_name(*slot)),
    }
}

/// An offset of the image of a handle, if that was kept.
#[tactic(auto, unfolding(crate::specs::ScriptRuns::kept_at))]
fn kept_at(kept: &[Kept], handle: u64, at: u64) -> Option<u64>
    ensures { result ≡ kept_at kept.now handle at }
{
    for image in kept {
        if image.handle == handle {
            return Some(image.base.wrapping_add(at));
        }
    }
    None
}

/// Where a call begins, if what it calls is there.
fn called_at(images: &[ImageSpec], target: &Target, running: &Running) -> Option<u64>
    requires handles { length running.now.handles ≡ length images.now }
    requires known { IsTarget images.now target.now }
    ensures { result ≡ called_at images.now target.now running.now }
{
    let runtime = running.machine.runtime();
    match target {
        Target::Image { image, at } => {
            let place = place_of(images, image.as_str());
            kept_at(runtime.kept.as_slice(), running.handle_at(place), *at)
        }
        Target::Service { slot } => {
            let offset = 16 * u64::from(*slot);
            Some(runtime.layout.slots.wrapping_add(offset))
        }
    }
}

/// The value of an argument.
fn argument_of(layout: &Layout, arg: &Arg) -> u64
    ensures { result ≡ argument_of layout.now arg.now }
{
    match arg {
        Arg::Number(n) => *n,
        Arg::At(offset) => layout.os_args.wrapping_add(*offset),
    }
}

/// The values of arguments.
fn arguments_of(alloc: Global, layout: &Layout, args: &[Arg]) -> Result<Vec<u64>, AllocError>
    ensures { IfOk result (λ values. values.items ≡ map (argument_of layout.now) args.now) }
{
    let mut values = Vec::new(alloc);
    for arg in args {
        values.push(argument_of(layout, arg))?;
    }
    Ok(values)
}

/// Buffers once more.
fn buffers_of(alloc: Global, buffers: &[Buffer]) -> Result<Vec<CallBuffer>, AllocError>
    ensures { IfOk result (λ copies. copies.items ≡ map buffer_of buffers.now) }
{
    let mut copies = Vec::new(alloc);
    for buffer in buffers {
        let bytes = Bytes::from_vec(Vec::from_slice(alloc, buffer.hex.as_slice())?);
        copies.push(CallBuffer {
            offset: buffer.offset,
            bytes,
        })?;
    }
    Ok(copies)
}

/// The byte at a physical address, 0 outside of memory.
#[tactic(auto, unfolding(guest_memory::specs::Pages::bytes_of))]
fn byte_at(memory: &GuestMemory, at: u64) -> u8
    ensures { result ≡ memory_bytes memory.now at }
{
    match memory.get(at) {
        Some(byte) => byte,
        None => 0,
    }
}

/// So many bytes from a physical address on, 0 outside of memory.
fn bytes_at(alloc: Global, memory: &GuestMemory, at: u64, len: u32) -> Result<Vec<u8>, AllocError>
    ensures { IfOk result (λ bytes. bytes.items ≡ bytes_from (memory_bytes memory.now) at len) }
{
    let mut bytes = Vec::new(alloc);
    let mut here = at;
    let mut left = len;
    while left > 0 {
        bytes.push(byte_at(memory, here))?;
        here = here.wrapping_add(1);
        left -= 1;
    }
    Ok(bytes)
}

/// The line of bytes of the operating system's arguments.
fn bytes_line(
    alloc: Global,
    layout: &Layout,
    memory: &GuestMemory,
    shown: &Shown,
) -> Result<Line, AllocError>
    ensures { IfOk result (λ line. line ≡ bytes_line layout.now memory.now shown.now) }
{
    let at = layout.os_args.wrapping_add(u64::from(shown.offset));
    let bytes = bytes_at(alloc, memory, at, shown.len)?;
    Ok(Line::Bytes {
        offset: shown.offset,
        hex: Bytes::from_vec(bytes),
    })
}

/// Puts the line of bytes of the operating system's arguments.
fn put_bytes<O: Sink>(
    alloc: Global,
    layout: &Layout,
    memory: &GuestMemory,
    shown: &Shown,
    out: &mut O,
) -> Result<(), Stop>
    ensures { Puts result (line_bytes (bytes_line layout.now memory.now shown.now)) (O.written out.old) (O.faults out.old) (O.written out.new) (O.faults out.new) }
{
    match bytes_line(alloc, layout, memory, shown) {
        Ok(line) => say(alloc, line, out),
        Err(_) => Err(Stop::Memory),
    }
}

/// Puts the lines of all bytes that are to be shown.
fn put_shown<O: Sink>(
    alloc: Global,
    layout: &Layout,
    memory: &GuestMemory,
    show: &[Shown],
    out: &mut O,
) -> Result<(), Stop>
    ensures { Puts result (bytes_of (map (bytes_line layout.now memory.now) show.now)) (O.written out.old) (O.faults out.old) (O.written out.new) (O.faults out.new) }
{
    for shown in show {
        match put_bytes(alloc, layout, memory, shown, out) {
            Ok(()) => {}
            Err(stop) => return Err(stop),
        }
    }
    Ok(())
}

/// Puts the line of a call that returned.
fn put_call<O: Sink>(
    alloc: Global,
    name: &Text,
    value: u64,
    steps: u64,
    out: &mut O,
) -> Result<(), Stop>
    ensures { Puts result (line_bytes (lines.Call name.now value steps)) (O.written out.old) (O.faults out.old) (O.written out.new) (O.faults out.new) }
{
    let name = copy_of(alloc, name)?;
    say(
        alloc,
        Line::Call {
            name,
            h0: value,
            steps,
        },
        out,
    )
}

/// Puts the last line of the job of a call.
fn put_call_end<O: Sink>(
    alloc: Global,
    name: &Text,
    end: JobEnd,
    out: &mut O,
) -> Result<Course, Stop>
    ensures course { IfOk result (λ course. course ≡ course_of end) }
    ensures puts { Puts result (line_bytes (call_line name.now end)) (O.written out.old) (O.faults out.old) (O.written out.new) (O.faults out.new) }
{
    let course = course_of(&end);
    let put = match end {
        JobEnd::Left { value, steps } => put_call(alloc, name, value, steps, out),
        JobEnd::Trapped { cause, steps } => put_stop(alloc, name, cause, steps, out),
        JobEnd::Reset { kind, status } => say(alloc, Line::Reset { kind, h0: status }, out),
        JobEnd::Halted(halt) => say(alloc, halt_line(halt), out),
    };
    match put {
        Ok(()) => Ok(course),
        Err(stop) => Err(stop),
    }
}

/// Puts the lines of the job of a call under way.
fn finish_call<O: Sink>(
    alloc: Global,
    name: &Text,
    running: &mut Running,
    out: &mut O,
) -> Result<Course, Stop>
    ensures made { IfOk result (λ course. Made (call_over name.now running.old.handles (job_of running.old.machine)) course running.new) }
    ensures puts { Puts result (bytes_of (call_over name.now running.old.handles (job_of running.old.machine)).lines) (O.written out.old) (O.faults out.old) (O.written out.new) (O.faults out.new) }
    ensures handles { running.new.handles ≡ running.old.handles }
{
    let end = match run_job(alloc, &mut running.machine, out) {
        Ok(end) => end,
        Err(stop) => return Err(stop),
    };
    put_call_end(alloc, name, end, out)
}

/// Puts the lines of the bytes that are to be shown, where the run goes on.
fn show_bytes<O: Sink>(
    alloc: Global,
    show: &[Shown],
    course: Course,
    running: &Running,
    out: &mut O,
) -> Result<(), Stop>
    ensures { Puts result (bytes_of (shown_lines show.now course running.now)) (O.written out.old) (O.faults out.old) (O.written out.new) (O.faults out.new) }
{
    let runtime = running.machine.runtime();
    match course {
        Course::GoesOn => put_shown(alloc, &runtime.layout, &runtime.memory, show, out),
        Course::Resets => Ok(()),
        Course::Halts => Ok(()),
    }
}

/// Puts the lines of the job of a call under way, and of the bytes that are to be shown behind it.
fn end_call<O: Sink>(
    alloc: Global,
    name: &Text,
    show: &[Shown],
    running: &mut Running,
    out: &mut O,
) -> Result<Course, Stop>
    ensures made { IfOk result (λ course. Made (with_shown show.now (call_over name.now running.old.handles (job_of running.old.machine))) course running.new) }
    ensures puts { Puts result (bytes_of (with_shown show.now (call_over name.now running.old.handles (job_of running.old.machine))).lines) (O.written out.old) (O.faults out.old) (O.written out.new) (O.faults out.new) }
    ensures handles { running.new.handles ≡ running.old.handles }
{
    let course = match finish_call(alloc, name, running, out) {
        Ok(course) => course,
        Err(stop) => return Err(stop),
    };
    match show_bytes(alloc, show, course, running, out) {
        Ok(()) => Ok(course),
        Err(stop) => Err(stop),
    }
}

/// What a call asks the machine for.
fn spec_of(alloc: Global, layout: &Layout, pc: u64, call: &CallStep) -> Result<CallSpec, AllocError>
    ensures { IfOk result (λ spec. spec ≡ spec_of layout.now pc call.now) }
{
    Ok(CallSpec {
        pc,
        args: arguments_of(alloc, layout, call.args.as_slice())?,
        buffers: buffers_of(alloc, call.buffers.as_slice())?,
        bound: call.bound,
    })
}

/// Begins a call; false where it is early.
fn begin_call(
    alloc: Global,
    pc: u64,
    call: &CallStep,
    running: &mut Running,
) -> Result<bool, AllocError>
    ensures begun { IfOk result (λ begins. record { begins = begins; state = running.new.machine } ≡ call_begun call.now running.old.machine pc) }
    ensures handles { running.new.handles ≡ running.old.handles }
{
    let runtime = running.machine.runtime();
    let call = spec_of(alloc, &runtime.layout, pc, call)?;
    begin(&mut running.machine, &Job::Call { call })
}

/// Puts the line of a call that can't begin.
fn put_early<O: Sink>(alloc: Global, name: Text, out: &mut O) -> Result<Course, Stop>
    ensures course { IfOk result (λ course. course ≡ GoesOn) }
    ensures puts { Puts result (bytes_of (lines.CallEarly name ∷ [])) (O.written out.old) (O.faults out.old) (O.written out.new) (O.faults out.new) }
{
    match say(alloc, Line::CallEarly { name }, out) {
        Ok(()) => Ok(Course::GoesOn),
        Err(stop) => Err(stop),
    }
}

/// Calls code at an address, and puts the lines of the step.
fn call_at<O: Sink>(
    alloc: Global,
    name: Text,
    pc: u64,
    call: &CallStep,
    running: &mut Running,
    out: &mut O,
) -> Result<Course, Stop>
    ensures made { IfOk result (λ course. Made (call_comes_to name call.now.show running.old (call_begun call.now running.old.machine pc)) course running.new) }
    ensures puts { Puts result (bytes_of (call_comes_to name call.now.show running.old (call_begun call.now running.old.machine pc)).lines) (O.written out.old) (O.faults out.old) (O.written out.new) (O.faults out.new) }
    ensures handles { running.new.handles ≡ running.old.handles }
{
    match begin_call(alloc, pc, call, running) {
        Ok(true) => end_call(alloc, &name, call.show.as_slice(), running, out),
        Ok(false) => put_early(alloc, name, out),
        Err(_) => Err(Stop::Memory),
    }
}

/// Calls runtime code, and puts the lines of the step.
#[tactic(auto, unfolding(crate::specs::ScriptRuns::call_made))]
pub fn call<O: Sink>(
    alloc: Global,
    images: &[ImageSpec],
    call: &CallStep,
    running: &mut Running,
    out: &mut O,
) -> Result<Course, Stop>
    requires handles { length running.old.handles ≡ length images.now }
    requires known { IsCall images.now call.now }
    ensures made { IfOk result (λ course. Made (call_made images.now call.now running.old) course running.new) }
    ensures puts { Puts result (bytes_of (call_made images.now call.now running.old).lines) (O.written out.old) (O.faults out.old) (O.written out.new) (O.faults out.new) }
    ensures many { length running.new.handles ≡ length running.old.handles }
{
    let name = match called_name(alloc, &call.target) {
        Ok(name) => name,
        Err(_) => return Err(Stop::Memory),
    };
    match called_at(images, &call.target, running) {
        Some(pc) => call_at(alloc, name, pc, call, running, out),
        None => put_early(alloc, name, out),
    }
}
