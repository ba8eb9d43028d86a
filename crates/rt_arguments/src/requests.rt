//! What the words of the command line ask for.

ghost use Rattle.std.specs.Prelude.{◌≡◌, Some, None, IfSome, IfOk, [], map, unwrap_or, true, false, codes};
ghost use Rattle.std.specs.List.{AllZip, filter};
ghost use Rattle.std.specs.Option.{option_map};
ghost use Rattle.clap.specs.Words.{found_of, first_value};
ghost use Rattle.rt_arguments.specs.Options as options;
ghost use Rattle.rt_arguments.specs.Words.{Lays, MeansPath};
ghost use Rattle.rt_accounts.specs.FailureText.{failing_word};
ghost use Rattle.rt_report.specs.declared.failing.Failing.{Failing};

use crate::host::{
    Admission, Asked, EntryName, Failing, FileText, JobsForm, LaidFile, Limits, ProfileForm,
    Question, ReportWidth, Request, RunPart, SoloTask, Style, TaskWord, Width, Window,
};
use crate::misread::{entry_of, laid_file, no_file, scale_of};
use clap::ArgMatches;
use clap::parser::ValueSource;
use rt_command_line::{Misfit, OF_ONE_OBJECT, Program, bytes, number, number_of, program_named};
use rt_words::MAX_TICKS;
use std::alloc::{AllocError, Global};

/// The words of an option of the command, in their order, if it is given.
fn words_of<'x, 'm>(matches: &'x ArgMatches<'m>, option: &str) -> Option<&'x [&'m str]>
    ensures { unwrap_or (option_map (λ words. map (λ w. w.now) words.now) result) [] ≡ options.option_words option.now matches.now }
{
    let (_, matches) = matches.subcommand()?;
    matches.get_strs(option)
}

/// The failure that a word of `--fail-on` asks for.
fn failing_of(word: &str) -> Option<Failing>
    ensures spells { IfSome result (λ failing. word.now ≡ failing_word failing) }
    ensures whole { (failing : Failing) → word.now ≡ failing_word failing → result ≡ Some failing }
{
    match word {
        "fault" => Some(Failing::Fault),
        "over" => Some(Failing::Over),
        "soft" => Some(Failing::Soft),
        "refused" => Some(Failing::Refused),
        "few" => Some(Failing::Few),
        "lost" => Some(Failing::Lost),
        _ => None,
    }
}

/// The failures that `--fail-on` asks for, each once, in its order; none where there is no such option.
pub fn failings_of(alloc: Global, matches: &ArgMatches<'_>) -> Result<Vec<Failing>, AllocError>
    ensures { IfOk result (λ failings. failings.items ≡ options.failings_of (options.option_words (codes "fail-on") matches.now)) }
{
    let mut fail_on = Vec::new(alloc);
    for word in words_of(matches, "fail-on").unwrap_or(&[]) {
        let Some(failing) = failing_of(word) else {
            continue;
        };
        if !fail_on.contains(&failing) {
            fail_on.push(failing)?;
        }
    }
    Ok(fail_on)
}

/// The task that a word means: a number, or else a name.
fn task_word(word: &str) -> TaskWord<'_> {
    match number_of(word) {
        Some(number) => match u32::try_from(number) {
            Ok(number) => TaskWord::Number(number),
            Err(_) => TaskWord::Name(word),
        },
        None => TaskWord::Name(word),
    }
}

/// The task that an option names, if it is there.
fn named_task<'m>(matches: &'m ArgMatches<'_>, option: &str) -> Option<TaskWord<'m>> {
    Some(task_word(&*matches.get_str(option)?))
}

/// The tasks that `--except` names, in its order; none where there is no such option.
pub fn excepted_of<'m>(
    alloc: Global,
    matches: &'m ArgMatches<'_>,
) -> Result<Vec<TaskWord<'m>>, AllocError> {
    let mut except = Vec::new(alloc);
    for word in words_of(matches, "except").unwrap_or(&[]) {
        except.push(task_word(&*word))?;
    }
    Ok(except)
}

/// Whether nothing is to be shown of how far a run has come.
pub fn hides_progress(matches: &ArgMatches<'_>) -> bool
    ensures none { options.flag_word (codes "no-progress") matches.now ≡ None → result ≡ false }
    ensures yes { options.flag_word (codes "no-progress") matches.now ≡ Some (codes "true") → result ≡ true }
    ensures no { options.flag_word (codes "no-progress") matches.now ≡ Some (codes "false") → result ≡ false }
{
    match matches.subcommand() {
        Some((_, matches)) => matches.get_flag("no-progress"),
        None => false,
    }
}

/// The files that `--data` names, in its order; none where there is no such option. Words that mean nothing are left out.
pub fn laid_of<'m>(
    alloc: Global,
    matches: &'m ArgMatches<'_>,
) -> Result<Vec<LaidFile<'m>>, AllocError>
    ensures { IfOk result (λ laid. AllZip Lays (filter options.lays_any (options.option_words (codes "data") matches.now)) laid.items) }
{
    let mut laid = Vec::new(alloc);
    for word in words_of(matches, "data").unwrap_or(&[]) {
        let Some(file) = laid_file(&*word) else {
            continue;
        };
        laid.push(file)?;
    }
    Ok(laid)
}

/// A number of 32 bits that is given for an option, or that stands in its place.
fn small(matches: &ArgMatches<'_>, option: &str) -> Option<u32> {
    u32::try_from(number(matches, option)?).ok()
}

/// What is asked of an object that is to be certified.
fn question_of(matches: &ArgMatches<'_>) -> Option<Question> {
    let limits = Limits {
        budget: small(matches, "budget")?,
        period: small(matches, "period")?,
        periods: small(matches, "periods")?,
    };
    Some(Question {
        ram: u32::try_from(bytes(matches, "ram")?).ok()?,
        split: matches.get_flag("split"),
        start: small(matches, "start")?,
        limits,
        jobs: number(matches, "jobs")?,
        places: matches.get_flag("where"),
    })
}

/// The certificate of an object that is asked for by options of one object; without such options, also the certificates of a set.
fn certificate_text<'m>(matches: &'m ArgMatches<'_>) -> Option<FileText<'m>> {
    let question = question_of(matches)?;
    for option in OF_ONE_OBJECT {
        if matches.value_source(option) == Some(ValueSource::CommandLine) {
            return Some(FileText::Certificate(question));
        }
    }
    Some(FileText::Certificates(question))
}

/// What is asked of a run: all of it, or a part. The output is that of the task that this word means.
fn part_of<'m>(matches: &ArgMatches<'_>, output: Option<TaskWord<'m>>) -> Option<RunPart<'m>> {
    if matches.get_flag("quiet") {
        Some(RunPart::End)
    } else {
        output.map(RunPart::Output)
    }
}

fn solo_text<'m>(matches: &'m ArgMatches<'_>) -> Option<FileText<'m>> {
    let ticks = number(matches, "ticks")?;
    let task = SoloTask {
        ram: u32::try_from(bytes(matches, "ram")?).ok()?,
        split: matches.get_flag("split"),
    };
    let own = matches.get_flag("out").then_some(TaskWord::Number(0));
    match part_of(matches, own) {
        Some(part) => Some(FileText::SoloPart { ticks, task, part }),
        None => Some(FileText::Solo { ticks, task }),
    }
}

fn run_text<'m>(matches: &'m ArgMatches<'_>) -> Option<FileText<'m>> {
    let ticks = number(matches, "ticks")?;
    match part_of(matches, named_task(matches, "out")) {
        Some(part) => Some(FileText::RunPart { ticks, part }),
        None => Some(FileText::Run { ticks }),
    }
}

fn report_text<'m>(matches: &'m ArgMatches<'_>) -> Option<FileText<'m>> {
    let ticks = number(matches, "ticks")?;
    let width = if matches.get_flag("wide") {
        ReportWidth::Wide
    } else if matches.get_flag("csv") {
        ReportWidth::Csv
    } else {
        ReportWidth::Narrow
    };
    Some(FileText::Report { ticks, width })
}

fn jobs_text<'m>(matches: &'m ArgMatches<'_>) -> Option<FileText<'m>> {
    let ticks = number(matches, "ticks")?;
    let form = JobsForm {
        details: matches.get_flag("wide"),
        unfinished: matches.get_flag("open"),
    };
    Some(FileText::Jobs { ticks, form })
}

fn profile_text<'m>(matches: &'m ArgMatches<'_>) -> Option<FileText<'m>> {
    let ticks = number(matches, "ticks")?;
    let form = if matches.get_flag("needs") {
        ProfileForm::Needs
    } else if matches.get_flag("callgrind") {
        ProfileForm::Callgrind
    } else {
        ProfileForm::Rows
    };
    Some(FileText::Profile { ticks, form })
}

fn chart_text<'m>(matches: &'m ArgMatches<'_>) -> Option<FileText<'m>> {
    let window = Window::new(number(matches, "from")?, number(matches, "ticks")?)?;
    let style = Style {
        width: small(matches, "width").and_then(Width::new),
        is_compact: matches.get_flag("compact"),
    };
    Some(FileText::Chart { window, style })
}

/// The window of a command that tells of each tick, if it ends at tick 2^40 or before: its first tick, and how many.
fn window_of(matches: &ArgMatches<'_>) -> Option<(u64, u64)> {
    let from: u64 = number(matches, "from")?;
    let ticks: u64 = number(matches, "ticks")?;
    (ticks <= MAX_TICKS.checked_sub(from)?).then_some((from, ticks))
}

fn waves_text<'m>(matches: &'m ArgMatches<'_>) -> Option<FileText<'m>> {
    let (from, ticks) = window_of(matches)?;
    let scale = scale_of(matches.get_str("timescale")?)?;
    Some(FileText::Waves { from, ticks, scale })
}

fn trace_text<'m>(matches: &'m ArgMatches<'_>) -> Option<FileText<'m>> {
    let (from, ticks) = window_of(matches)?;
    let task = named_task(matches, "task");
    Some(FileText::Trace { from, ticks, task })
}

/// The text that a command prints of a file, if it prints one.
fn text_of<'m>(program: Program, matches: &'m ArgMatches<'_>) -> Option<FileText<'m>> {
    match program {
        Program::Solo => solo_text(matches),
        Program::Run => run_text(matches),
        Program::Report => report_text(matches),
        Program::Jobs => jobs_text(matches),
        Program::Profile => profile_text(matches),
        Program::Chart => chart_text(matches),
        Program::Waves => waves_text(matches),
        Program::Trace => trace_text(matches),
        Program::Certify => certificate_text(matches),
        Program::List => Some(FileText::Listing),
        Program::Show => Some(FileText::Contents),
        Program::Check => Some(FileText::Admitted),
        _ => None,
    }
}

/// The word of an argument, lent for as long as the matches are.
fn word<'m>(matches: &'m ArgMatches<'_>, name: &str) -> Option<&'m str>
    ensures { option_map (λ s. s.now) result ≡ first_value (found_of matches.now) name.now }
{
    let word = matches.get_str(name)?;
    Some(&*word)
}

/// The path of a file that is read: `-` is the standard input.
fn input<'m>(matches: &'m ArgMatches<'_>, name: &str) -> Option<&'m str>
    ensures { MeansPath (codes "/dev/stdin") (first_value (found_of matches.now) name.now) (option_map (λ s. s.now) result) }
{
    match word(matches, name)? {
        "-" => Some("/dev/stdin"),
        path => Some(path),
    }
}

/// The path of the file that is made: `-` is the standard output.
fn output<'m>(matches: &'m ArgMatches<'_>) -> Option<&'m str>
    ensures { MeansPath (codes "/dev/stdout") (first_value (found_of matches.now) (codes "OUT")) (option_map (λ s. s.now) result) }
{
    match word(matches, "OUT")? {
        "-" => Some("/dev/stdout"),
        path => Some(path),
    }
}

/// Whether a system that is run has to be admitted.
fn admission_of(matches: &ArgMatches<'_>) -> Admission {
    if matches.get_flag("overloaded") {
        Admission::Waived
    } else {
        Admission::Required
    }
}

/// The name that an object's entry is to have, if one is asked for; none at all where that is no name.
fn entry_name<'m>(matches: &'m ArgMatches<'_>) -> Option<Option<EntryName<'m>>> {
    match word(matches, "name") {
        Some(word) => Some(Some(EntryName::new(word)?)),
        None => Some(None),
    }
}

fn image_request<'m>(
    image: &'m str,
    matches: &'m ArgMatches<'_>,
    laid: &'m [LaidFile<'m>],
) -> Option<Request<'m>> {
    let symbols = word(matches, "symbols");
    Some(Request::Image {
        image,
        object: output(matches)?,
        entry: entry_of(word(matches, "entry")?, symbols)?,
        symbols,
        name: entry_name(matches)?,
        laid,
    })
}

/// What a command asks for that makes a file of this one, if it makes one.
fn make_request<'m>(
    program: Program,
    file: &'m str,
    matches: &'m ArgMatches<'_>,
    laid: &'m [LaidFile<'m>],
) -> Option<Request<'m>> {
    if no_file(matches).is_some() {
        return None;
    }
    match program {
        Program::Asm => Some(Request::Asm {
            source: file,
            object: output(matches)?,
            tells_all: matches.get_flag("all"),
            name: entry_name(matches)?,
        }),
        Program::Elf => Some(Request::Elf {
            file,
            object: output(matches)?,
            name: entry_name(matches)?,
            laid,
        }),
        Program::Image => image_request(file, matches, laid),
        Program::Pack => Some(Request::Pack {
            set: file,
            system: output(matches)?,
        }),
        Program::Convert => Some(Request::Convert {
            system: file,
            converted: output(matches)?,
        }),
        _ => None,
    }
}

/// What was asked for, with the failures that are, or with these files in the image of an object that is made. None where an argument is missing, which `read_words` doesn't let pass, or where an option
/// means nothing.
#[inline(never)]
pub fn request_of<'m>(
    matches: &'m ArgMatches<'_>,
    asked: Asked<'m>,
    laid: &'m [LaidFile<'m>],
) -> Option<Request<'m>> {
    if Misfit::of(matches).is_some() {
        return None;
    }
    let (name, matches) = matches.subcommand()?;
    let (program, file) = program_named(name)?;
    let file = input(matches, file)?;
    let admission = admission_of(matches);
    match program {
        Program::Debug => Some(Request::Debug {
            system: file,
            admission,
        }),
        Program::Gdb => Some(Request::Gdb {
            system: file,
            admission,
        }),
        Program::Asm | Program::Elf | Program::Image | Program::Pack | Program::Convert => {
            make_request(program, file, matches, laid)
        }
        _ => Some(Request::Print {
            file,
            text: text_of(program, matches)?,
            admission,
            asked,
        }),
    }
}
