//! What the simulator can be asked for.

ghost use Rattle.std.specs.Prelude.{◌≡◌};
ghost use Rattle.std.specs.Option.{option_map};
ghost use Rattle.rt_perform.specs.Noted.{admission_of};
ghost use Rattle.rt_perform.specs.Paths.{first_path, first_kind, made_path, names_path};
ghost use Rattle.rt_perform.specs.Produced.{entry_name, naming_path};

use rt_desk::reading::FileKind;
use rt_elf::flat::Entry;
use rt_elf::naming::EntryName;
use rt_programs::Admission;
use rt_programs::printing::{Asked, FileText};

/// A file whose bytes stand in the image of the object that is made, from the symbol of this name on.
#[derive(Clone, Copy, PartialEq, Eq)]
pub struct LaidFile<'a> {
    pub symbol: &'a str,
    pub path: &'a str,
}

/// What a command line asks for.
#[derive(Clone, Copy, PartialEq, Eq)]
pub enum Request<'a> {
    /// To print a text of a file, and to say which of the failures that are asked for happened in the run that it is of, if it is of one. Where
    /// admission is waived, a system that is run may be overloaded.
    Print {
        file: &'a str,
        text: FileText<'a>,
        admission: Admission,
        asked: Asked<'a>,
    },
    /// To debug the system of a file by commands from standard input.
    Debug {
        system: &'a str,
        admission: Admission,
    },
    /// To serve gdb on the system of a file, by its remote protocol over standard input and output.
    Gdb {
        system: &'a str,
        admission: Admission,
    },
    /// To assemble the source of a file into an object file, whose entry gets this name. All its faulty lines are reported, or the first.
    Asm {
        source: &'a str,
        object: &'a str,
        tells_all: bool,
        name: Option<EntryName<'a>>,
    },
    /// To make an object file of an ELF file, whose entry gets this name, or that of the object file's path, with the bytes of these files
    /// in its image.
    Elf {
        file: &'a str,
        object: &'a str,
        name: Option<EntryName<'a>>,
        laid: &'a [LaidFile<'a>],
    },
    /// To make an object file of a flat image, with the symbols that a list of names gives, whose entry gets this name, or that of the
    /// object file's path, with the bytes of these files in its image.
    Image {
        image: &'a str,
        object: &'a str,
        entry: Entry<'a>,
        symbols: Option<&'a str>,
        name: Option<EntryName<'a>>,
        laid: &'a [LaidFile<'a>],
    },
    /// To make a system file of what a set file names.
    Pack {
        set: &'a str,
        system: &'a str,
    },
    /// To write the system of a file in version Two.
    Convert {
        system: &'a str,
        converted: &'a str,
    },
}

impl<'a> Request<'a> {
    /// Whether a system has to be admitted to be run.
    pub(crate) fn admission(self) -> Admission
        ensures { result ≡ admission_of self.entry }
    {
        match self {
            Request::Print { admission, .. } => admission,
            Request::Debug { admission, .. } | Request::Gdb { admission, .. } => admission,
            _ => Admission::Required,
        }
    }

    /// The path of the file that is read first.
    pub(crate) fn path(self) -> &'a str
        ensures { result.now ≡ first_path self.entry }
    {
        match self {
            Request::Print { file, .. } => file,
            Request::Debug { system, .. } | Request::Gdb { system, .. } => system,
            Request::Asm { source, .. } => source,
            Request::Elf { file, .. } => file,
            Request::Image { image, .. } => image,
            Request::Pack { set, .. } => set,
            Request::Convert { system, .. } => system,
        }
    }

    /// What that file is to hold.
    pub(crate) fn kind(self) -> FileKind
        ensures { result ≡ first_kind self.entry }
    {
        match self {
            Request::Print { text, .. } => text.kind(),
            Request::Debug { .. } | Request::Gdb { .. } | Request::Convert { .. } => {
                FileKind::System
            }
            Request::Asm {
                tells_all: true,
                ..
            } => FileKind::WholeSource,
            Request::Asm { .. } => FileKind::Source,
            Request::Elf { .. } => FileKind::Elf,
            Request::Image { .. } => FileKind::Image,
            Request::Pack { .. } => FileKind::Set,
        }
    }

    /// The path of the list of names that is read behind it.
    pub(crate) fn names(self) -> Option<&'a str>
        ensures { option_map (λ path. path.now) result ≡ names_path self.entry }
    {
        match self {
            Request::Image { symbols, .. } => symbols,
            _ => None,
        }
    }

    /// The path of the file that is made.
    pub(crate) fn made(self) -> Option<&'a str>
        ensures { option_map (λ path. path.now) result ≡ made_path self.entry }
    {
        match self {
            Request::Print { .. } | Request::Debug { .. } | Request::Gdb { .. } => None,
            Request::Asm { object, .. } => Some(object),
            Request::Elf { object, .. } => Some(object),
            Request::Image { object, .. } => Some(object),
            Request::Pack { system, .. } => Some(system),
            Request::Convert { converted, .. } => Some(converted),
        }
    }

    /// The name that the entry of the object that is made gets, if it is to have one.
    pub(crate) fn entry_name(self) -> Option<EntryName<'a>>
        ensures { result ≡ entry_name self.entry }
    {
        match self {
            Request::Asm { name, .. } | Request::Elf { name, .. } => name,
            Request::Image { name, .. } => name,
            _ => None,
        }
    }

    /// The path that gives the entry a name, if none is asked for.
    pub(crate) fn naming_path(self) -> Option<&'a str>
        ensures { option_map (λ path. path.now) result ≡ naming_path self.entry }
    {
        match self {
            Request::Elf { object, .. } | Request::Image { object, .. } => Some(object),
            _ => None,
        }
    }
}
