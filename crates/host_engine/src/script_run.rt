//! The run of a script over the files of its images and its store.
ghost use Rattle.std.specs.Prelude.{◌≡◌, ◌<◌, ◌∷◌, [], IfOk, OnErr, OnOk, Err, Some, length, map, true, replicate};
ghost use Rattle.record_text.specs.declared.line.Line.TheVariants as lines;
ghost use Rattle.memory_map.specs.Map.{map_of};
ghost use Rattle.page_alloc.specs.Layout.{IsRam};
ghost use Rattle.firmware_core.specs.Jobs.{job_of};
ghost use Rattle.host_script.specs.Script.{is_ram_base};
ghost use Rattle.host_script.specs.Forms.{IsScript, IsStep};
ghost use Rattle.host_engine.specs.Jobs.{line_bytes, bytes_of, Puts};
ghost use Rattle.guest_memory.specs.Pages.{Pages};
ghost use Rattle.time_service.specs.Clocks.{set_to};
ghost use Rattle.time_service.specs.Texts.{time_in};
ghost use Rattle.uh_base.specs.Answers.{Reads};
ghost use Rattle.variable_store.specs.Reading.{named};
ghost use Rattle.variable_store.specs.Store.{store_of};
ghost use Rattle.host_engine.specs.declared.course.Course.TheVariants.{GoesOn};
ghost use Rattle.host_engine.specs.ScriptRuns.{place_of, file_at, with_handle, handle_at, load_made, stop_line, last_line, course_of, job_over, start_made, unload_made, exit_line, exit_over, exit_made, row_of, map_lines, peek_line, peek_made, vars_made, step_made, run_with, variables_in, run_of, at_opening, Made, RunGives};

use crate::call_step::call;
use crate::code::ImageFile;
use crate::course::Course;
use crate::inputs::Inputs;
use crate::job::{Stop, put_line, run_job, say};
use address_view::{View, is_seen, load_bytes};
use firmware_core::{Halt, Job, JobEnd, Machine, Setup, begin, load, unload};
use guest_memory::GuestMemory;
use host_script::{ImageSpec, Script, Step};
use memory_map::{Descriptor, MapCursor};
use page_alloc::PageMap;
use record_text::{Cause, Line};
use std::alloc::{AllocError, Global};
use std::marker::Model;
use time_service::Clock;
use uh_base::{Bytes, EfiStatus, Sink, Text};
use variable_store::{StoreFault, Variables};

/// The machine of a run, and for each image of the script the handle of the one that was loaded last, 0 where none was.
#[derive(Drop)]
pub struct Running {
    pub(crate) machine: Machine,
    pub(crate) handles: Vec<u64>,
}

impl Model for Running {
    ghost use Rattle.host_engine.specs.ScriptRuns.{Running};

    ghost Value = { Running };

    ghost view = { λ r. record { machine = r.machine; handles = r.handles.items } };
}

/// The place of an image among those of a script, by its name.
pub(crate) fn place_of(images: &[ImageSpec], name: &str) -> usize
    ensures { result ≡ place_of images.now name.now }
{
    let mut place = 0;
    for image in images {
        if image.name.as_str() == name {
            return place;
        }
        place += 1;
    }
    place
}

/// The file at a place.
fn file_at(files: &[ImageFile], place: usize) -> &ImageFile
    requires { place < length files.now }
    ensures { result.now.bytes.items ≡ file_at (map (λ file. file.bytes.items) files.now) place }
{
    &files[place]
}

/// A name once more.
pub(crate) fn copy_of(alloc: Global, name: &Text) -> Result<Text, Stop>
    ensures same { IfOk result (λ copy. copy ≡ name.now) }
    ensures memory { OnErr result (result ≡ Err Stop.Memory) }
{
    match Text::new(alloc, name.as_str()) {
        Ok(copy) => Ok(copy),
        Err(_) => Err(Stop::Memory),
    }
}

/// Puts the line of a load.
fn put_load<O: Sink>(
    alloc: Global,
    name: &Text,
    status: u64,
    base: u64,
    pages: u32,
    out: &mut O,
) -> Result<(), Stop>
    ensures { Puts result (line_bytes (lines.Load name.now status base pages)) (O.written out.old) (O.faults out.old) (O.written out.new) (O.faults out.new) }
{
    let name = copy_of(alloc, name)?;
    put_line(
        alloc,
        &Line::Load {
            name,
            h0: status,
            h1: base,
            pages,
        },
        out,
    )
}

/// Puts the line of a start.
fn put_start<O: Sink>(
    alloc: Global,
    name: &Text,
    status: u64,
    steps: u64,
    out: &mut O,
) -> Result<(), Stop>
    ensures { Puts result (line_bytes (lines.Start name.now status steps)) (O.written out.old) (O.faults out.old) (O.written out.new) (O.faults out.new) }
{
    let name = copy_of(alloc, name)?;
    put_line(
        alloc,
        &Line::Start {
            name,
            h0: status,
            steps,
        },
        out,
    )
}

/// Puts the line of an unload.
fn put_unload<O: Sink>(alloc: Global, name: &Text, status: u64, out: &mut O) -> Result<(), Stop>
    ensures { Puts result (line_bytes (lines.Unload name.now status)) (O.written out.old) (O.faults out.old) (O.written out.new) (O.faults out.new) }
{
    let name = copy_of(alloc, name)?;
    put_line(alloc, &Line::Unload { name, h0: status }, out)
}

impl Running {
    /// Keeps the handle of the image at a place, unless it was refused.
    fn keep(&mut self, place: usize, handle: u64)
        requires { place < length self.old.handles }
        ensures { self.new ≡ record self.old { handles = with_handle self.old.handles place handle } }
    {
        if handle != 0 {
            self.handles[place] = handle;
        }
    }

    /// The handle of the image at a place.
    pub(crate) fn handle_at(&self, place: usize) -> u64
        requires { place < length self.now.handles }
        ensures { result ≡ handle_at self.now.handles place }
    {
        self.handles[place]
    }
}

/// Loads the image at a place of the script and puts the line of the step.
#[tactic(auto, unfolding(crate::specs::ScriptRuns::load_made))]
fn load_image<O: Sink>(
    alloc: Global,
    name: &Text,
    place: usize,
    file: &ImageFile,
    running: &mut Running,
    out: &mut O,
) -> Result<Course, Stop>
    requires known { place < length running.old.handles }
    ensures made { IfOk result (λ course. Made (load_made name.now place file.now.bytes.items running.old) course running.new) }
    ensures puts { Puts result (bytes_of (load_made name.now place file.now.bytes.items running.old).lines) (O.written out.old) (O.faults out.old) (O.written out.new) (O.faults out.new) }
    ensures many { length running.new.handles ≡ length running.old.handles }
{
    let (status, handle, base, pages) = match load(
        alloc,
        &mut running.machine,
        file.bytes.as_slice(),
    ) {
        Ok(loaded) => loaded,
        Err(_) => return Err(Stop::Memory),
    };
    running.keep(place, handle);
    match put_load(alloc, name, status.0, base, pages, out) {
        Ok(()) => Ok(Course::GoesOn),
        Err(stop) => Err(stop),
    }
}

/// How the run stands behind a job.
pub(crate) fn course_of(end: &JobEnd) -> Course
    ensures { result ≡ course_of end.now }
{
    match end {
        JobEnd::Left { .. } => Course::GoesOn,
        JobEnd::Trapped { .. } => Course::GoesOn,
        JobEnd::Reset { .. } => Course::Resets,
        JobEnd::Halted(_) => Course::Halts,
    }
}

/// The line of a halt.
pub(crate) fn halt_line(halt: Halt) -> Line
    ensures { result ≡ lines.Halt halt.cause halt.pc halt.at }
{
    Line::Halt {
        cause: halt.cause,
        h0: halt.pc,
        h1: halt.at,
    }
}

/// Puts the line of a call that was ended by its bound or a trap.
pub(crate) fn put_stop<O: Sink>(
    alloc: Global,
    name: &Text,
    cause: Cause,
    steps: u64,
    out: &mut O,
) -> Result<(), Stop>
    ensures { Puts result (line_bytes (stop_line name.now cause steps)) (O.written out.old) (O.faults out.old) (O.written out.new) (O.faults out.new) }
{
    let name = copy_of(alloc, name)?;
    let line = match cause {
        Cause::Bound => Line::CallBound { name, steps },
        cause => Line::CallTrap { name, cause, steps },
    };
    say(alloc, line, out)
}

/// Puts the last line of a job.
fn put_last<O: Sink>(alloc: Global, name: &Text, end: JobEnd, out: &mut O) -> Result<Course, Stop>
    ensures course { IfOk result (λ course. course ≡ course_of end) }
    ensures puts { Puts result (line_bytes (last_line name.now end)) (O.written out.old) (O.faults out.old) (O.written out.new) (O.faults out.new) }
{
    let course = course_of(&end);
    let put = match end {
        JobEnd::Left { value, steps } => put_start(alloc, name, value, steps, out),
        JobEnd::Trapped { cause, steps } => put_stop(alloc, name, cause, steps, out),
        JobEnd::Reset { kind, status } => say(alloc, Line::Reset { kind, h0: status }, out),
        JobEnd::Halted(halt) => say(alloc, halt_line(halt), out),
    };
    match put {
        Ok(()) => Ok(course),
        Err(stop) => Err(stop),
    }
}

/// Puts the lines of the job under way.
fn finish_job<O: Sink>(
    alloc: Global,
    name: &Text,
    running: &mut Running,
    out: &mut O,
) -> Result<Course, Stop>
    ensures made { IfOk result (λ course. Made (job_over name.now running.old.handles (job_of running.old.machine)) course running.new) }
    ensures puts { Puts result (bytes_of (job_over name.now running.old.handles (job_of running.old.machine)).lines) (O.written out.old) (O.faults out.old) (O.written out.new) (O.faults out.new) }
    ensures handles { running.new.handles ≡ running.old.handles }
{
    let end = match run_job(alloc, &mut running.machine, out) {
        Ok(end) => end,
        Err(stop) => return Err(stop),
    };
    put_last(alloc, name, end, out)
}

/// Runs the image at a place of the script, if it can begin, and puts the lines of the step.
#[tactic(auto, unfolding(crate::specs::ScriptRuns::start_made))]
fn start<O: Sink>(
    alloc: Global,
    name: &Text,
    place: usize,
    bound: u64,
    running: &mut Running,
    out: &mut O,
) -> Result<Course, Stop>
    requires known { place < length running.old.handles }
    ensures made { IfOk result (λ course. Made (start_made name.now place bound running.old) course running.new) }
    ensures puts { Puts result (bytes_of (start_made name.now place bound running.old).lines) (O.written out.old) (O.faults out.old) (O.written out.new) (O.faults out.new) }
    ensures many { length running.new.handles ≡ length running.old.handles }
{
    let job = Job::Start {
        handle: running.handle_at(place),
        bound,
    };
    match begin(&mut running.machine, &job) {
        Ok(true) => return finish_job(alloc, name, running, out),
        Ok(false) => {}
        Err(_) => return Err(Stop::Memory),
    }
    match put_start(alloc, name, EfiStatus::INVALID_PARAMETER.0, 0, out) {
        Ok(()) => Ok(Course::GoesOn),
        Err(stop) => Err(stop),
    }
}

/// Unloads the image at a place of the script and puts the line of the step.
#[tactic(auto, unfolding(crate::specs::ScriptRuns::unload_made))]
fn unload_image<O: Sink>(
    alloc: Global,
    name: &Text,
    place: usize,
    running: &mut Running,
    out: &mut O,
) -> Result<Course, Stop>
    requires known { place < length running.old.handles }
    ensures made { IfOk result (λ course. Made (unload_made name.now place running.old) course running.new) }
    ensures puts { Puts result (bytes_of (unload_made name.now place running.old).lines) (O.written out.old) (O.faults out.old) (O.written out.new) (O.faults out.new) }
    ensures many { length running.new.handles ≡ length running.old.handles }
{
    let handle = running.handle_at(place);
    let status = match unload(&mut running.machine, handle) {
        Ok(status) => status,
        Err(_) => return Err(Stop::Memory),
    };
    match put_unload(alloc, name, status.0, out) {
        Ok(()) => Ok(Course::GoesOn),
        Err(stop) => Err(stop),
    }
}

/// Puts the last line of the job that ends boot services.
fn put_exit<O: Sink>(alloc: Global, end: JobEnd, out: &mut O) -> Result<Course, Stop>
    ensures course { IfOk result (λ course. course ≡ course_of end) }
    ensures puts { Puts result (line_bytes (exit_line end)) (O.written out.old) (O.faults out.old) (O.written out.new) (O.faults out.new) }
{
    let course = course_of(&end);
    let put = match end {
        JobEnd::Left { value, .. } => say(alloc, Line::ExitBoot { h0: value }, out),
        JobEnd::Trapped { cause, .. } => {
            let (h0, h1) = (0, 0);
            say(alloc, Line::Halt { cause, h0, h1 }, out)
        }
        JobEnd::Reset { kind, status } => say(alloc, Line::Reset { kind, h0: status }, out),
        JobEnd::Halted(halt) => say(alloc, halt_line(halt), out),
    };
    match put {
        Ok(()) => Ok(course),
        Err(stop) => Err(stop),
    }
}

/// Puts the lines of the job that ends boot services.
fn finish_exit<O: Sink>(alloc: Global, running: &mut Running, out: &mut O) -> Result<Course, Stop>
    ensures made { IfOk result (λ course. Made (exit_over running.old.handles (job_of running.old.machine)) course running.new) }
    ensures puts { Puts result (bytes_of (exit_over running.old.handles (job_of running.old.machine)).lines) (O.written out.old) (O.faults out.old) (O.written out.new) (O.faults out.new) }
    ensures handles { running.new.handles ≡ running.old.handles }
{
    let end = match run_job(alloc, &mut running.machine, out) {
        Ok(end) => end,
        Err(stop) => return Err(stop),
    };
    put_exit(alloc, end, out)
}

/// Ends boot services for the image at a place of the script and puts the lines of the step.
#[tactic(auto, unfolding(crate::specs::ScriptRuns::exit_made))]
fn exit_boot<O: Sink>(
    alloc: Global,
    place: usize,
    key: Option<u64>,
    running: &mut Running,
    out: &mut O,
) -> Result<Course, Stop>
    requires known { place < length running.old.handles }
    ensures made { IfOk result (λ course. Made (exit_made place key running.old) course running.new) }
    ensures puts { Puts result (bytes_of (exit_made place key running.old).lines) (O.written out.old) (O.faults out.old) (O.written out.new) (O.faults out.new) }
    ensures many { length running.new.handles ≡ length running.old.handles }
{
    let handle = running.handle_at(place);
    let status = match running.machine.exit_boot(handle, key) {
        Ok(status) => status.0,
        Err(_) => return Err(Stop::Memory),
    };
    if status == EfiStatus::SUCCESS.0 {
        return finish_exit(alloc, running, out);
    }
    match say(alloc, Line::ExitBoot { h0: status }, out) {
        Ok(()) => Ok(Course::GoesOn),
        Err(stop) => Err(stop),
    }
}

/// The line of a descriptor.
fn row_of(descriptor: Descriptor) -> Line
    ensures { result ≡ row_of descriptor }
{
    Line::MemmapRow {
        memory_type: descriptor.memory_type,
        h0: descriptor.start,
        pages: descriptor.pages,
        h1: descriptor.attribute,
    }
}

/// Puts the lines of the descriptors that are left.
fn put_rows<O: Sink>(alloc: Global, rows: &mut MapCursor, out: &mut O) -> Result<(), Stop>
    ensures { Puts result (bytes_of (map row_of rows.old)) (O.written out.old) (O.faults out.old) (O.written out.new) (O.faults out.new) }
{
    loop {
        match rows.next() {
            Some(descriptor) => match say(alloc, row_of(descriptor), out) {
                Ok(()) => {}
                Err(stop) => return Err(stop),
            },
            None => return Ok(()),
        }
    }
}

/// Puts the lines of the memory map.
#[tactic(auto, unfolding(crate::specs::ScriptRuns::map_lines))]
fn put_map<O: Sink>(alloc: Global, pages: &PageMap, out: &mut O) -> Result<(), Stop>
    ensures { Puts result (bytes_of (map_lines pages.now)) (O.written out.old) (O.faults out.old) (O.written out.new) (O.faults out.new) }
{
    let key = Line::MemmapKey { key: pages.key() };
    match say(alloc, key, out) {
        Ok(()) => {}
        Err(stop) => return Err(stop),
    }
    let mut rows = MapCursor::new(pages);
    put_rows(alloc, &mut rows, out)
}

/// The line of bytes of memory, whatever the rights there.
#[tactic(auto, unfolding(crate::specs::ScriptRuns::peek_line))]
fn peek_line(
    alloc: Global,
    memory: &GuestMemory,
    view: &View,
    at: u64,
    len: u32,
) -> Result<Line, AllocError>
    ensures { IfOk result (λ line. line ≡ peek_line view.now memory.now at len) }
{
    let len = u64::from(len);
    if !is_seen(memory, view, at, len) {
        return Ok(Line::PeekFault { h0: at });
    }
    let bytes = load_bytes(alloc, memory, view, at, len)?;
    Ok(Line::Peek {
        h0: at,
        hex: Bytes::from_vec(bytes),
    })
}

/// Puts the line of bytes of memory, in the present view.
fn put_peek<O: Sink>(
    alloc: Global,
    at: u64,
    len: u32,
    running: &Running,
    out: &mut O,
) -> Result<Course, Stop>
    ensures course { IfOk result (λ course. course ≡ GoesOn) }
    ensures puts { Puts result (bytes_of (peek_made at len running.now).lines) (O.written out.old) (O.faults out.old) (O.written out.new) (O.faults out.new) }
{
    let runtime = running.machine.runtime();
    let line = match peek_line(alloc, &runtime.memory, &runtime.view, at, len) {
        Ok(line) => line,
        Err(_) => return Err(Stop::Memory),
    };
    match say(alloc, line, out) {
        Ok(()) => Ok(Course::GoesOn),
        Err(stop) => Err(stop),
    }
}

/// Puts the line of the present variables.
fn put_vars<O: Sink>(alloc: Global, running: &Running, out: &mut O) -> Result<Course, Stop>
    ensures course { IfOk result (λ course. course ≡ GoesOn) }
    ensures puts { Puts result (bytes_of (vars_made running.now).lines) (O.written out.old) (O.faults out.old) (O.written out.new) (O.faults out.new) }
{
    let bytes = match running.machine.variables().save() {
        Ok(bytes) => bytes,
        Err(_) => return Err(Stop::Memory),
    };
    let hex = Bytes::from_vec(bytes);
    match say(alloc, Line::Vars { hex }, out) {
        Ok(()) => Ok(Course::GoesOn),
        Err(stop) => Err(stop),
    }
}

/// A step that isn't built makes nothing.
fn make_nothing<O: Sink>(out: &mut O) -> Result<Course, Stop>
    ensures course { IfOk result (λ course. course ≡ GoesOn) }
    ensures puts { Puts result [] (O.written out.old) (O.faults out.old) (O.written out.new) (O.faults out.new) }
{
    let _ = out;
    Ok(Course::GoesOn)
}

/// Makes a step and puts its lines.
fn make_step<O: Sink>(
    alloc: Global,
    script: &Script,
    inputs: &Inputs,
    step: &Step,
    running: &mut Running,
    out: &mut O,
) -> Result<Course, Stop>
    requires known { IsStep script.now.image step.now }
    requires many { length inputs.now.images ≡ length script.now.image }
    requires handles { length running.old.handles ≡ length script.now.image }
    ensures made { IfOk result (λ course. Made (step_made script.now inputs.now step.now running.old) course running.new) }
    ensures puts { Puts result (bytes_of (step_made script.now inputs.now step.now running.old).lines) (O.written out.old) (O.faults out.old) (O.written out.new) (O.faults out.new) }
    ensures handles { length running.new.handles ≡ length running.old.handles }
{
    match step {
        Step::Load { image } => {
            let place = place_of(script.image.as_slice(), image.as_str());
            let file = file_at(inputs.images.as_slice(), place);
            load_image(alloc, image, place, file, running, out)
        }
        Step::Start { image, bound } => {
            let place = place_of(script.image.as_slice(), image.as_str());
            start(alloc, image, place, *bound, running, out)
        }
        Step::Unload { image } => {
            let place = place_of(script.image.as_slice(), image.as_str());
            unload_image(alloc, image, place, running, out)
        }
        Step::ExitBoot { image, key } => {
            let place = place_of(script.image.as_slice(), image.as_str());
            exit_boot(alloc, place, *key, running, out)
        }
        Step::Check { .. } => make_nothing(out),
        Step::Map(_) => make_nothing(out),
        Step::Call(step) => call(alloc, script.image.as_slice(), step, running, out),
        Step::Peek { at, len } => put_peek(alloc, *at, *len, running, out),
        Step::Vars => put_vars(alloc, running, out),
        Step::MemMap => match put_map(alloc, running.machine.pages(), out) {
            Ok(()) => Ok(Course::GoesOn),
            Err(stop) => Err(stop),
        },
    }
}

/// The clock at opening: at the time of the script.
fn opening_clock(script: &Script) -> Clock
    requires { IsScript script.now }
    ensures clock { result ≡ set_to 0 (time_in script.now.time) }
    ensures set_at { result.set_at ≡ 0 }
{
    match Clock::at(script.time.as_str()) {
        Some(clock) => clock,
        None => unreachable!(),
    }
}

/// The variables at opening: those of the store, if there is one.
fn variables_of(alloc: Global, inputs: &Inputs) -> Result<Variables, StoreFault>
    ensures { Reads named (λ variables. variables) result (variables_in inputs.now.store) }
{
    match &inputs.store {
        Some(store) => Variables::load(alloc, store.as_slice()),
        None => Ok(Variables::new(alloc)),
    }
}

/// The run at opening, with these variables.
fn open(alloc: Global, script: &Script, variables: Variables) -> Result<Running, AllocError>
    requires { IsScript script.now }
    ensures { IfOk result (λ running. running ≡ at_opening script.now variables) }
{
    let mut handles = Vec::new(alloc);
    handles.resize(script.image.as_slice().len(), 0)?;
    let setup = Setup {
        base: script.ram_base,
        pages: script.ram_pages,
        ticks: Vec::from_slice(alloc, script.ticks.as_slice())?,
        clock: opening_clock(script),
        variables,
        trace: script.trace,
    };
    Ok(Running {
        machine: Machine::new(alloc, setup)?,
        handles,
    })
}

/// Makes the steps in order, with these variables at opening, and puts their lines; true where the run is halted.
fn run_steps<O: Sink>(
    alloc: Global,
    script: &Script,
    inputs: &Inputs,
    variables: Variables,
    out: &mut O,
) -> Result<bool, Stop>
    requires forms { IsScript script.now }
    requires many { length inputs.now.images ≡ length script.now.image }
    ensures halted { IfOk result (λ halted. halted ≡ (run_with script.now inputs.now variables).halted) }
    ensures puts { Puts result (bytes_of (run_with script.now inputs.now variables).lines) (O.written out.old) (O.faults out.old) (O.written out.new) (O.faults out.new) }
{
    let mut running = match open(alloc, script, variables) {
        Ok(running) => running,
        Err(_) => return Err(Stop::Memory),
    };
    let steps = script.step.as_slice();
    for step in steps {
        match make_step(alloc, script, inputs, step, &mut running, out) {
            Ok(Course::GoesOn) => {}
            Ok(Course::Resets) => return Ok(false),
            Ok(Course::Halts) => return Ok(true),
            Err(stop) => return Err(stop),
        }
    }
    match put_line(alloc, &Line::End, out) {
        Ok(()) => Ok(false),
        Err(stop) => Err(stop),
    }
}

/// How the run of a script ended.
#[derive(Clone, Copy, Debug, PartialEq, Eq)]
pub enum Outcome {
    /// The last line is `end` or a `reset`.
    Done,
    /// The last line is a `halt`.
    Halted,
    /// The store is refused.
    Store,
    /// The output failed.
    Write,
    /// Memory was wanting.
    Memory,
}

/// Runs the steps of a script over the bytes of its images and its store, from the machine at opening, and puts each line as
/// it comes, in one put each. Nothing is put where the store is refused.
pub fn run_script<O: Sink>(alloc: Global, script: &Script, inputs: &Inputs, out: &mut O) -> Outcome
    requires forms { IsScript script.now }
    requires many { length inputs.now.images ≡ length script.now.image }
    ensures { RunGives (run_of script.now inputs.now) result (O.written out.old) (O.faults out.old) (O.written out.new) (O.faults out.new) }
{
    let variables = match variables_of(alloc, inputs) {
        Ok(variables) => variables,
        Err(StoreFault::At(_)) => return Outcome::Store,
        Err(StoreFault::Memory) => return Outcome::Memory,
    };
    match run_steps(alloc, script, inputs, variables, out) {
        Ok(true) => Outcome::Halted,
        Ok(false) => Outcome::Done,
        Err(Stop::Write) => Outcome::Write,
        Err(Stop::Memory) => Outcome::Memory,
    }
}
