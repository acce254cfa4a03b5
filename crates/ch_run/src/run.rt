ghost use Rattle.std.specs.Prelude.{◌≡◌, ◌≢◌, ◌≤◌, ◌⊎◌, IfOk, IfSome, None, Some, [], drop, map, true, false};
ghost use Rattle.std.specs.String.{string_bytes};
ghost use Rattle.std.specs.Io.KnownBytes.{Appends};
ghost use Rattle.ch_io.specs.Faults.{HasRisen};
ghost use Rattle.ch_io.specs.Streams.{AppendsPart};
ghost use Rattle.ch_run.specs.Answers.{Answers, AnswersInPart, input_of, most_read, read_by};
ghost use Rattle.ch_run.specs.Conduct.{Conduct, IsWhole, standing};
ghost use Rattle.ch_run.specs.Requests.{answered, asked_of, reads};
ghost use Rattle.ch_words.specs.Requests.{HasSmallValues, reads_input};
ghost use Rattle.ch_words.specs.declared.request.Request.TheVariants.{Demo};
ghost use Rattle.ch_words.specs.Usage.{usage};

use crate::answers::answer_to;
use crate::words::asked_of;
use ch_demo::answer as demo;
use ch_io::{Gate, ReadError, Sink, Source, read_input, write_all};
use ch_words::Request;
use std::alloc::Global;
use std::sync::Wait;
use std::thread::Threads;

/// The most bytes that are read of an input: one more than it may have.
const MOST_READ: usize = 1048577;

/// Writes the usage line.
fn write_usage<K: Sink>(sink: &mut K) -> u8
    ensures known { (result ≡ 2) ⊎ (result ≡ 4) }
    ensures usage { result ≡ 2 → Appends (K.taken sink.old) (K.taken sink.new) usage }
    ensures part { result ≡ 4 → AppendsPart (K.taken sink.old) (K.taken sink.new) usage }
    ensures cause { result ≡ 4 → HasRisen (K.faults sink.old) (K.faults sink.new) }
{
    let line =
        b"usage: chilltune eval|check|show|search|run|replay|demo [--at V,V] [--builders N] [--arrays all|sum] [--number N]\n";
    match write_all(sink, line) {
        Ok(()) => 2,
        Err(_) => 4,
    }
}

/// Reads the input, answers it, and writes the text.
fn from_input<S: Source, K: Sink>(
    alloc: Global,
    request: &Request,
    source: &mut S,
    sink: &mut K,
) -> u8
    requires asked { answered request.now ≡ Some request.now }
    requires small { HasSmallValues request.now }
    requires reads { reads_input request.now ≡ true }
    ensures known { result ≤ 6 }
    ensures words { result ≢ 2 }
    ensures answer { IsWhole result → IfSome (S.left source.old) (λ bytes.
        Answers request.now bytes (K.taken sink.old) (K.taken sink.new) result) }
    ensures read { IsWhole result → IfSome (S.left source.old) (λ bytes.
        S.left source.new ≡ Some (drop most_read bytes)) }
    ensures read_fault { result ≡ 3 → HasRisen (S.faults source.old) (S.faults source.new) }
    ensures read_nothing { result ≡ 3 → K.taken sink.new ≡ K.taken sink.old }
    ensures write_fault { result ≡ 4 → HasRisen (K.faults sink.old) (K.faults sink.new) }
    ensures write_part { result ≡ 4 → IfSome (S.left source.old) (λ bytes.
        AnswersInPart request.now bytes (K.taken sink.old) (K.taken sink.new)) }
    ensures memory { result ≡ 5 → K.taken sink.new ≡ K.taken sink.old }
{
    match read_input(alloc, source, MOST_READ) {
        Err(ReadError::Failed) => 3,
        Err(ReadError::Memory) => 5,
        Ok(bytes) => match answer_to(alloc, request, &bytes) {
            Err(_) => 5,
            Ok(answer) => match write_all(sink, answer.text.as_bytes()) {
                Ok(()) => answer.status,
                Err(_) => 4,
            },
        },
    }
}

/// Writes what is told of the deck that is made from a number. No input is read.
fn from_number<K: Sink>(alloc: Global, number: u32, sink: &mut K) -> u8
    ensures known { (result ≡ 0) ⊎ ((result ≡ 4) ⊎ (result ≡ 5)) }
    ensures answer { result ≡ 0
        → Answers (Demo number) [] (K.taken sink.old) (K.taken sink.new) 0 }
    ensures write_fault { result ≡ 4 → HasRisen (K.faults sink.old) (K.faults sink.new) }
    ensures write_part { result ≡ 4
        → AnswersInPart (Demo number) [] (K.taken sink.old) (K.taken sink.new) }
    ensures memory { result ≡ 5 → K.taken sink.new ≡ K.taken sink.old }
{
    match demo(alloc, number) {
        Err(_) => 5,
        Ok(text) => match write_all(sink, text.as_bytes()) {
            Ok(()) => 0,
            Err(_) => 4,
        },
    }
}

/// Does what was asked for, and writes the text.
fn carried_out<S: Source, K: Sink>(
    alloc: Global,
    request: &Request,
    source: &mut S,
    sink: &mut K,
) -> u8
    requires asked { answered request.now ≡ Some request.now }
    requires small { HasSmallValues request.now }
    ensures known { result ≤ 6 }
    ensures words { result ≢ 2 }
    ensures answer { IsWhole result → IfSome (input_of request.now (S.left source.old)) (λ bytes.
        Answers request.now bytes (K.taken sink.old) (K.taken sink.new) result) }
    ensures read { IsWhole result → IfSome (S.left source.old) (λ bytes.
        S.left source.new ≡ Some (drop (read_by request.now) bytes)) }
    ensures unread { reads_input request.now ≡ false → source.new ≡ source.old }
    ensures read_fault { result ≡ 3 → HasRisen (S.faults source.old) (S.faults source.new) }
    ensures read_nothing { result ≡ 3 → K.taken sink.new ≡ K.taken sink.old }
    ensures write_fault { result ≡ 4 → HasRisen (K.faults sink.old) (K.faults sink.new) }
    ensures write_part { result ≡ 4 → IfSome (input_of request.now (S.left source.old)) (λ bytes.
        AnswersInPart request.now bytes (K.taken sink.old) (K.taken sink.new)) }
    ensures memory { result ≡ 5 → K.taken sink.new ≡ K.taken sink.old }
{
    match request {
        Request::Demo { number } => from_number(alloc, *number, sink),
        _ => from_input(alloc, request, source, sink),
    }
}

/// Runs every command that is answered without threads: reads the input, writes the text and answers a status. It waits
/// for nobody.
///
/// `words` are those after the program's name. The status is 0 where the text was written (6 where
/// it tells of a refused recipe), 1 where the refusal of the input was, 2 where the words ask for nothing that is answered (the usage
/// line was written, and nothing was read), 3 where a read failed, 4 where a write failed, and 5 where there
/// was not enough memory.
#[tactic(auto, using(crate::proofs::Conducts::told_usage, crate::proofs::Conducts::without_memory, crate::proofs::Conducts::carried))]
pub fn still<S: Source, K: Sink>(
    alloc: Global,
    words: &[String],
    source: &mut S,
    sink: &mut K,
) -> u8
    ensures conduct { Conduct (map string_bytes words.now)
        (standing (S.left source.old) (S.faults source.old) (K.taken sink.old) (K.faults sink.old))
        (standing (S.left source.new) (S.faults source.new) (K.taken sink.new) (K.faults sink.new)) result }
    ensures unread { reads (asked_of (map string_bytes words.now)) ≡ false
        → source.new ≡ source.old }
{
    match asked_of(alloc, words) {
        Err(_) => 5,
        Ok(None) => write_usage(sink),
        Ok(Some(request)) => carried_out(alloc, &request, source, sink),
    }
}

/// Runs a command. Every command is sent to [`still`], whose statuses and texts these are.
///
/// `rt` is for the commands that start threads, and `gate` may hold their threads.
pub fn top<R: Threads + Wait + Sync, S: Source, K: Sink, G: Gate + Sync>(
    rt: &R,
    alloc: Global,
    words: &[String],
    source: &mut S,
    sink: &mut K,
    gate: &G,
) -> u8
    ensures conduct { Conduct (map string_bytes words.now)
        (standing (S.left source.old) (S.faults source.old) (K.taken sink.old) (K.faults sink.old))
        (standing (S.left source.new) (S.faults source.new) (K.taken sink.new) (K.faults sink.new)) result }
    ensures unread { reads (asked_of (map string_bytes words.now)) ≡ false
        → source.new ≡ source.old }
{
    let _ = rt;
    let _ = gate;
    still(alloc, words, source, sink)
}
