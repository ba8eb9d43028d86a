//! The certificate of one object.

ghost use Rattle.std.specs.Prelude.{◌≡◌, true, false, if◌then◌else◌, [], All, IfOk};
ghost use Rattle.rt_words.specs.Limits.{is_ram_size};
ghost use Rattle.rt_core.specs.Loading.{Loads};
ghost use Rattle.rt_image.specs.ObjectFile.{object_value};
ghost use Rattle.rt_image.specs.SystemFile.{task_set};
ghost use Rattle.rt_programs.specs.Certify.{lone_set, distance_text, next_text, certificate_text, job_text, longest_text, closest_text, places_text, Fits, CertifyMeans, CertifiesCalmly};
ghost use Rattle.rt_programs.specs.Working.LoneCertified.{Certifies};
ghost use Rattle.rt_opening.specs.Ends.{Ends};

use crate::question::Question;
use rt_certify::{
    Certificate, Extremes, JobAt, Limits, NotCertified, PlacedCertificate, certify_where,
};
use rt_core::Machine;
use rt_exec::{Fetcher, Predecoded};
use rt_fault_lines::FaultLines;
use rt_follow::Beat;
use rt_image::{Object, System, Task, Version, read_object};
use rt_opening::{LoadFault, SimFault, answer};
use rt_queue::{MinQueue, Tournament};
use rt_sink::Sink;
use rt_text_out::{Byte, Decimal, Out, Text, plain, write};
use rt_words::is_ram_size;
use std::alloc::{AllocError, Global};

/// The system of one task that runs this object, with the whole hart as its share.
fn lone<'a>(
    alloc: Global,
    object: Object<'a>,
    question: &Question,
) -> Result<System<'a>, AllocError>
    ensures set { IfOk result (λ system. task_set system ≡ lone_set (object_value object.entry) question.now) }
    ensures ram { IfOk result (λ system. All (λ task. task.ram ≡ question.now.ram) system.tasks.items) }
{
    let mut tasks = Vec::new(alloc);
    tasks.push(Task {
        budget: 1,
        period: 1,
        start: question.start,
        split: question.split,
        ram: question.ram,
        object,
    })?;
    Ok(System {
        version: Version::Two,
        hyper: 1,
        tasks,
    })
}

/// Loads a machine of it. A function of its own, so that the loop of `certify` keeps its registers.
#[inline(never)]
fn load_lone<Q: MinQueue, F: Fetcher>(
    alloc: Global,
    system: &System,
) -> Result<Machine<Q, F>, rt_core::LoadFault>
    requires { All (λ t. is_ram_size t.ram ≡ true) system.now.tasks.items }
    ensures { Loads (task_set system.now) result }
{
    Machine::load(alloc, system)
}

/// The least distance, or `-` where there is none.
#[derive(Clone, Copy)]
struct Distance(Option<u64>);

impl Text for Distance {
    ghost text = { λ x. distance_text x.0 };

    ghost most = { 512 };

    fn offer<O: Out>(&self, out: &mut O) {
        match self.0 {
            Some(distance) => Decimal(distance).offer(out),
            None => plain(b"-").offer(out),
        }
    }
}

/// The next release, or that there is none.
#[derive(Clone, Copy)]
struct NextRelease(Option<u64>);

impl Text for NextRelease {
    ghost text = { λ x. next_text x.0 };

    ghost most = { 1024 };

    fn offer<O: Out>(&self, out: &mut O) {
        match self.0 {
            Some(next) => (plain(b" next "), Decimal(next)).offer(out),
            None => plain(b" ended").offer(out),
        }
    }
}

/// A certificate, as a line.
#[derive(Clone, Copy)]
pub(crate) struct CertificateLine(pub Certificate);

impl Text for CertificateLine {
    ghost text = { λ x. certificate_text x.0 };

    ghost most = { 8192 };

    fn offer<O: Out>(&self, out: &mut O) {
        let certificate = self.0;
        let jobs = (plain(b"certified "), Decimal(certificate.jobs));
        let longest = (jobs, plain(b" longest "), Decimal(certificate.longest));
        let distance = (
            longest,
            plain(b" distance "),
            Distance(certificate.distance),
        );
        (distance, NextRelease(certificate.next), Byte(b'\n')).offer(out);
    }
}

/// A job, behind the name of the number that it has.
#[derive(Clone, Copy)]
struct JobText(JobAt);

impl Text for JobText {
    ghost text = { λ x. job_text x.0 };

    ghost most = { 2048 };

    fn offer<O: Out>(&self, out: &mut O) {
        let JobAt { job, release } = self.0;
        let number = (plain(b" job "), Decimal(job));
        (number, plain(b" release "), Decimal(release), Byte(b'\n')).offer(out);
    }
}

/// The longest job, as a line, if there is one.
#[derive(Clone, Copy)]
struct LongestLine(Option<JobAt>);

impl Text for LongestLine {
    ghost text = { λ x. longest_text x.0 };

    ghost most = { 4096 };

    fn offer<O: Out>(&self, out: &mut O) {
        match self.0 {
            Some(job) => (plain(b"longest"), JobText(job)).offer(out),
            None => plain(b"").offer(out),
        }
    }
}

/// The job with the least distance, as a line, if there is one.
#[derive(Clone, Copy)]
struct DistanceLine(Option<JobAt>);

impl Text for DistanceLine {
    ghost text = { λ x. closest_text x.0 };

    ghost most = { 4096 };

    fn offer<O: Out>(&self, out: &mut O) {
        match self.0 {
            Some(job) => (plain(b"distance"), JobText(job)).offer(out),
            None => plain(b"").offer(out),
        }
    }
}

/// The jobs that have the numbers of a certificate, a line each, where they are told.
#[derive(Clone, Copy)]
struct Places {
    extremes: Extremes,
    told: bool,
}

impl Text for Places {
    ghost text = { λ x. if x.told then places_text x.extremes else [] };

    ghost most = { 8192 };

    fn offer<O: Out>(&self, out: &mut O) {
        let Extremes { longest, distance } = self.extremes;
        if self.told {
            (LongestLine(longest), DistanceLine(distance)).offer(out)
        } else {
            plain(b"").offer(out)
        }
    }
}

/// Notes of a certificate that no set has a task whose budget is the longest job and whose period is the least distance. Where jobs may have
/// several periods these two may be of different jobs, and nothing is noted.
fn note_overlong(alloc: Global, limits: Limits, certificate: Certificate, faulted: &mut FaultLines)
    ensures { Fits limits certificate → faulted.new.lines ≡ faulted.old.lines }
{
    let most = certificate.longest;
    if limits.periods == 1
        && let Some(least) = certificate.distance
        && most > least
    {
        let line = format!(in alloc;
            "  no set has a budget over its period: {most} is over {least}"
        );
        faulted.lines = line.ok();
    }
}

/// Runs an object alone, and answers the certificate that the question asks for, or why there is none. It beats while it runs. Where the
/// program isn't certified, it is noted where, and what to do, with this number of its task.
///
/// # Errors
///
/// In this order: `BadSize` of the RAM, `ImageTooBig`, `BadEntry`; or there is no memory.
pub(crate) fn certificate_of<B: Beat>(
    alloc: Global,
    object: Object<'_>,
    question: &Question,
    number: u32,
    faulted: &mut FaultLines,
    beat: &B,
) -> Result<Result<PlacedCertificate, NotCertified>, SimFault>
    ensures certifies { Certifies (object_value object.entry) question.now result }
    ensures calm { faulted.new.lines ≡ faulted.old.lines }
{
    if !is_ram_size(question.ram) {
        return Err(SimFault::Load(LoadFault::BadSize));
    }
    let system = lone(alloc, object, question)?;
    let mut machine: Machine<Tournament, Predecoded> = load_lone(alloc, &system)?;
    let limits = question.limits;
    match certify_where(&mut machine, question.start, limits, question.jobs, beat) {
        Ok(placed) => Ok(Ok(placed)),
        Err(refusal) => {
            faulted.note_refusal(
                alloc,
                &mut machine,
                number,
                &system.tasks,
                limits,
                refusal,
                beat,
            );
            Ok(Err(refusal))
        }
    }
}

/// Runs the object of a file (RTI1) alone, and writes the certificate that the question asks for: a line that tells how many jobs
/// were finished, the longest of them, the least distance from a release to the tick until which its job slept, and the next release or
/// the end. Where they are asked for, the first jobs with the most ticks and with the least distance have lines behind it. The answer is the
/// length in bytes. It beats while it runs. Where the program isn't certified, it is noted where, and what to do; where no set has a task with
/// such a budget and period, that is noted.
///
/// # Errors
///
/// In this order: the refusal of the file, `BadSize` of the RAM, `ImageTooBig`, `BadEntry`, `NotCertified`; or there is no memory. Then
/// the sink has taken nothing. `Device` where the sink failed: it took so many of the first bytes of the lines.
pub fn certify<S: Sink, B: Beat>(
    alloc: Global,
    bytes: &[u8],
    question: &Question,
    out: &mut S,
    faulted: &mut FaultLines,
    beat: &B,
) -> Result<u64, SimFault>
    requires { (S.seen out.old).failed ≡ false }
    ensures ends { Ends S.seen (CertifyMeans bytes.now question.now) out.old result out.new }
    ensures calm { CertifiesCalmly bytes.now question.now → faulted.new.lines ≡ faulted.old.lines }
{
    let object = read_object(alloc, bytes)?;
    match certificate_of(alloc, object, question, 0, faulted, beat)? {
        Ok(placed) => {
            note_overlong(alloc, question.limits, placed.certificate, faulted);
            let places = Places {
                extremes: placed.extremes,
                told: question.places,
            };
            answer(write(&(CertificateLine(placed.certificate), places), out))
        }
        Err(refusal) => Err(SimFault::NotCertified(refusal)),
    }
}
