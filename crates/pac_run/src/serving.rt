// Request lines served one after another.
ghost use Rattle.std.specs.Prelude.{◌≡◌, ◌⊎◌, ◌≤◌, ◌∷◌, ℕ, List, [], Bool, false, true, IfOk, OnOk, OnErr, IsErrOf};
ghost use Rattle.std.specs.List.{AllByRecursion};
ghost use Rattle.pac_outside.specs.Causes.{Faulted};
ghost use Rattle.pac_outside.specs.Content.{Took};
ghost use Rattle.pac_outside.specs.Devices.{OneFaulted, each};
ghost use Rattle.pac_request.specs.declared.request.Request.{Request as ARequest};
ghost use Rattle.pac_request.specs.RequestFits.{AskedFits, RequestFits};
ghost use Rattle.pac_engine.specs.Closing.{is_stop};
ghost use Rattle.pac_engine.specs.Standing.{HasDevices, durable_of};
ghost use Rattle.pac_run.specs.Asked.{LineAsks, listed_asked};
ghost use Rattle.pac_run.specs.Serving.{Broke, IsAhead, LineBroke, LineServed, Replied, Served};
ghost use Rattle.pac_run.specs.Stopping.{HasWorked};
ghost use Rattle.pac_run.specs.Texts.{IsPlain, SaysUnlessFault, texts};
ghost use Rattle.pac_run.specs.declared.stop.RunStop.{RunStop as AStop};

use crate::limits::MAX_INPUT;
use crate::stop::{RunStop, stop_of_engine, stop_of_read};
use crate::text::{plain_replies, reply_texts};
use pac_base::{Exact, NoMemory, Refusal};
use pac_engine::{Engine, EngineCause, EngineFault};
use pac_lines::LineReader;
use pac_outside::{Devices, Disk, Sink, Source, write_all};
use pac_request::{MAX_LINE, Request, read_line_with};
use pac_types::Catalogue;
use pac_value::Value;
use std::alloc::Global;

// Writes a text.
fn write<O: Sink>(output: &mut O, text: &[u8]) -> Result<(), RunStop>
    ensures ok { OnOk result (Took (O.held output.old) text.now (O.held output.new)) }
    ensures says { SaysUnlessFault (O.held output.old) text.now (O.held output.new) (Faulted (O.faults output.old) (O.faults output.new)) }
    ensures only { OnErr result (IsErrOf result RunStop.OutputFault) }
    ensures cause { OnErr result (Faulted (O.faults output.old) (O.faults output.new)) }
    ensures later { O.faults output.old ≤ O.faults output.new }
{
    match write_all(output, text) {
        Ok(()) => Ok(()),
        Err(_) => Err(RunStop::OutputFault),
    }
}

// What a line asks, if it asks anything; the arguments of a call take the room of a list. A line that is refused is a request to
// report that.
fn request_of(
    alloc: Global,
    catalogue: &Catalogue,
    line: &[u8],
    room: Vec<Value>,
) -> Result<Option<Request>, NoMemory>
    ensures asks { IfOk result (λ asked. LineAsks catalogue.now line.now (listed_asked asked)) }
    ensures fits { IfOk result (AskedFits catalogue.now) }
{
    match read_line_with(alloc, catalogue, line, room) {
        Ok(asked) => Ok(asked),
        Err(Refusal::Fault(fault)) => Ok(Some(Request::Refused(fault))),
        Err(Refusal::NoMemory) => Err(NoMemory),
    }
}

// Whether the request ends the engine.
fn is_stop(asked: &Request) -> bool
    ensures { result ≡ is_stop asked.now }
{
    matches!(asked, Request::Stop)
}

// What a save may give out before a device fails: the texts of the open group's replies. Nothing for another request.
fn texts_ahead(
    alloc: Global,
    catalogue: &Catalogue,
    engine: &Engine,
    asked: &Request,
) -> Result<Vec<u8>, NoMemory>
    ensures text { IfOk result (λ ahead. IsAhead catalogue.now asked.now engine.now.session ahead.items) }
{
    match asked {
        Request::Save => reply_texts(alloc, catalogue, engine.held()),
        _ => Ok(Vec::new(alloc)),
    }
}

// The texts of what was given out before a fault. After a failed device it takes no memory: they were made ahead.
fn texts_before(
    alloc: Global,
    catalogue: &Catalogue,
    fault: &EngineFault,
    ahead: Vec<u8>,
) -> Result<Vec<u8>, NoMemory>
    requires ahead { fault.now.cause ≡ EngineCause.DiskFault → (fault.now.replies ≡ []) ⊎ (ahead.items ≡ texts catalogue.now fault.now.replies) }
    ensures text { IfOk result (λ text. text.items ≡ texts catalogue.now fault.now.replies) }
    ensures plain { IfOk result (λ _. AllByRecursion IsPlain fault.now.replies) }
    ensures known { OnErr result (¬ (fault.now.cause ≡ EngineCause.DiskFault)) }
{
    let replies = fault.replies.items();
    if fault.cause != EngineCause::DiskFault {
        return reply_texts(alloc, catalogue, replies);
    }
    plain_replies(replies);
    if replies.is_empty() {
        Ok(Vec::new(alloc))
    } else {
        Ok(ahead)
    }
}

// Has one request answered, and writes the replies that are given out; `ahead` is what a save may give out before a device
// fails.
fn answer<O: Sink, D: Disk>(
    alloc: Global,
    catalogue: &Catalogue,
    engine: &mut Engine,
    asked: Request,
    ahead: Vec<u8>,
    output: &mut O,
    devices: &mut Devices<D>,
) -> Result<(), RunStop>
    requires same { catalogue.now ≡ engine.old.session.catalogue }
    requires fits { RequestFits catalogue.now asked }
    requires goes_on { engine.old.ended ≡ false }
    requires ready { HasDevices D.known engine.old devices.old }
    requires ahead { IsAhead catalogue.now asked engine.old.session ahead.items }
    ensures ok { OnOk result (Replied catalogue.now (asked ∷ []) engine.old engine.new (O.held output.old) (O.held output.new) (each D.known devices.old) (each D.known devices.new)) }
    ensures err { (stop : AStop) → IsErrOf result stop → Broke catalogue.now asked engine.old engine.new (O.held output.old) (O.held output.new) (each D.known devices.old) (each D.known devices.new) (Faulted (O.faults output.old) (O.faults output.new)) stop }
    ensures stopped { OnOk result (engine.new.ended ≡ is_stop asked) }
    ensures ready { OnOk result (HasDevices D.known engine.new devices.new) }
    ensures worked { HasWorked result → HasDevices D.known engine.new devices.new }
    ensures full { (need : ℕ) → IsErrOf result (RunStop.LogFull need) → HasDevices D.known engine.new devices.new }
    ensures large { (bytes : ℕ) → IsErrOf result (RunStop.TooLarge bytes) → HasDevices D.known engine.new devices.new }
    ensures later { O.faults output.old ≤ O.faults output.new }
    ensures output_fault { IsErrOf result RunStop.OutputFault → Faulted (O.faults output.old) (O.faults output.new) }
    ensures disk_fault { IsErrOf result RunStop.DiskFault → OneFaulted (each D.faults devices.old) (each D.faults devices.new) }
    ensures quiet { ¬ IsErrOf result RunStop.DiskFault → each D.faults devices.new ≡ each D.faults devices.old }
{
    match engine.step(asked, devices) {
        Ok(replies) => {
            let given = replies.items();
            if given.is_empty() {
                return Ok(());
            }
            let text = reply_texts(alloc, catalogue, given)?;
            write(output, &text)
        }
        Err(fault) => {
            let text = texts_before(alloc, catalogue, &fault, ahead)?;
            let _ = write(output, &text);
            Err(stop_of_engine(fault.cause))
        }
    }
}

// Serves one line, and answers whether it is a stop.
fn serve_line<O: Sink, D: Disk>(
    alloc: Global,
    catalogue: &Catalogue,
    engine: &mut Engine,
    line: &[u8],
    output: &mut O,
    devices: &mut Devices<D>,
) -> Result<bool, RunStop>
    requires same { catalogue.now ≡ engine.old.session.catalogue }
    requires goes_on { engine.old.ended ≡ false }
    requires ready { HasDevices D.known engine.old devices.old }
    ensures ok { IfOk result (λ stops. LineServed catalogue.now line.now stops engine.old engine.new (O.held output.old) (O.held output.new) (each D.known devices.old) (each D.known devices.new)) }
    ensures err { (stop : AStop) → IsErrOf result stop → LineBroke catalogue.now line.now engine.old engine.new (O.held output.old) (O.held output.new) (each D.known devices.old) (each D.known devices.new) (Faulted (O.faults output.old) (O.faults output.new)) stop }
    ensures stopped { IfOk result (λ stops. engine.new.ended ≡ stops) }
    ensures ready { OnOk result (HasDevices D.known engine.new devices.new) }
    ensures worked { HasWorked result → HasDevices D.known engine.new devices.new }
    ensures full { (need : ℕ) → IsErrOf result (RunStop.LogFull need) → HasDevices D.known engine.new devices.new }
    ensures large { (bytes : ℕ) → IsErrOf result (RunStop.TooLarge bytes) → HasDevices D.known engine.new devices.new }
    ensures later { O.faults output.old ≤ O.faults output.new }
    ensures output_fault { IsErrOf result RunStop.OutputFault → Faulted (O.faults output.old) (O.faults output.new) }
    ensures disk_fault { IsErrOf result RunStop.DiskFault → OneFaulted (each D.faults devices.old) (each D.faults devices.new) }
    ensures quiet { ¬ IsErrOf result RunStop.DiskFault → each D.faults devices.new ≡ each D.faults devices.old }
{
    let room = engine.spare_args();
    let Some(asked) = request_of(alloc, catalogue, line, room)? else {
        return Ok(false);
    };
    let stops = is_stop(&asked);
    let ahead = texts_ahead(alloc, catalogue, engine, &asked)?;
    answer(alloc, catalogue, engine, asked, ahead, output, devices)?;
    Ok(stops)
}

// Serves the lines of the input over an engine of this catalogue.
fn serve_lines<I: Source, O: Sink, D: Disk>(
    alloc: Global,
    catalogue: &Catalogue,
    engine: &mut Engine,
    input: &mut I,
    output: &mut O,
    devices: &mut Devices<D>,
) -> Result<(), RunStop>
    requires same { catalogue.now ≡ engine.old.session.catalogue }
    requires none { engine.old.session.txns ≡ [] }
    requires held { engine.old.session.held ≡ [] }
    requires goes_on { engine.old.ended ≡ false }
    requires durable { durable_of engine.old ≡ engine.old.session.before }
    requires ready { HasDevices D.known engine.old devices.old }
    ensures served { Served engine.old engine.new (I.left input.old) (I.left input.new) (O.held output.old) (O.held output.new) (each D.known devices.old) (each D.known devices.new) (Faulted (O.faults output.old) (O.faults output.new)) result }
    ensures worked { HasWorked result → HasDevices D.known engine.new devices.new }
    ensures full { (need : ℕ) → IsErrOf result (RunStop.LogFull need) → HasDevices D.known engine.new devices.new }
    ensures large { (bytes : ℕ) → IsErrOf result (RunStop.TooLarge bytes) → HasDevices D.known engine.new devices.new }
    ensures input_fault { IsErrOf result RunStop.InputFault → Faulted (I.faults input.old) (I.faults input.new) }
    ensures output_fault { IsErrOf result RunStop.OutputFault → Faulted (O.faults output.old) (O.faults output.new) }
    ensures disk_fault { IsErrOf result RunStop.DiskFault → OneFaulted (each D.faults devices.old) (each D.faults devices.new) }
    ensures quiet { ¬ IsErrOf result RunStop.DiskFault → each D.faults devices.new ≡ each D.faults devices.old }
{
    let mut reader = LineReader::new(alloc, MAX_INPUT, MAX_LINE as u32);
    loop {
        match reader.next_line(input) {
            Ok(true) => {}
            Ok(false) => {
                let (stop, ahead) = (Request::Stop, Vec::new(alloc));
                return answer(alloc, catalogue, engine, stop, ahead, output, devices);
            }
            Err(error) => return Err(stop_of_read(error)),
        }
        if serve_line(alloc, catalogue, engine, reader.line(), output, devices)? {
            return Ok(());
        }
    }
}

/// Serves the request lines of the input, up to a stop or to the end, which is a stop too. A line that asks nothing is
/// skipped, and one that is refused is answered so. What the replies of a closed group say is written at once. Of a line that is
/// too long no more is held than shows that it is.
///
/// # Errors
///
/// - [`RunStop::InputFault`] and [`RunStop::OutputFault`] only where the count of faults of the input or of the output rose.
/// - [`RunStop::DiskFault`], [`RunStop::LogFull`] and [`RunStop::TooLarge`] where a step of the engine answers them. The
///   replies that became durable before are written then.
/// - [`RunStop::TooLong`] only where the input has a byte more than [`MAX_INPUT`], and no stop before it.
/// - [`RunStop::NoMemory`] where there was no memory.
pub fn serve<I: Source, O: Sink, D: Disk>(
    alloc: Global,
    engine: &mut Engine,
    input: &mut I,
    output: &mut O,
    devices: &mut Devices<D>,
) -> Result<(), RunStop>
    requires none { engine.old.session.txns ≡ [] }
    requires held { engine.old.session.held ≡ [] }
    requires goes_on { engine.old.ended ≡ false }
    requires ready { HasDevices D.known engine.old devices.old }
    ensures served { Served engine.old engine.new (I.left input.old) (I.left input.new) (O.held output.old) (O.held output.new) (each D.known devices.old) (each D.known devices.new) (Faulted (O.faults output.old) (O.faults output.new)) result }
    ensures worked { HasWorked result → HasDevices D.known engine.new devices.new }
    ensures full { (need : ℕ) → IsErrOf result (RunStop.LogFull need) → HasDevices D.known engine.new devices.new }
    ensures large { (bytes : ℕ) → IsErrOf result (RunStop.TooLarge bytes) → HasDevices D.known engine.new devices.new }
    ensures input_fault { IsErrOf result RunStop.InputFault → Faulted (I.faults input.old) (I.faults input.new) }
    ensures output_fault { IsErrOf result RunStop.OutputFault → Faulted (O.faults output.old) (O.faults output.new) }
    ensures disk_fault { IsErrOf result RunStop.DiskFault → OneFaulted (each D.faults devices.old) (each D.faults devices.new) }
    ensures quiet { ¬ IsErrOf result RunStop.DiskFault → each D.faults devices.new ≡ each D.faults devices.old }
{
    let catalogue = engine.catalogue().copy(alloc)?;
    serve_lines(alloc, &catalogue, engine, input, output, devices)
}
