//! What a profile keeps of one task.

ghost use Rattle.std.specs.Prelude.{◌≡◌, ◌+◌, ◌*◌, ◌^◌, ◌<◌, ◌≤◌, length, slice_set, slice_index, true, All, IfOk, IfSome, Some, None};
ghost use Rattle.std.specs.Option.{option_map, option_map_or};
ghost use Rattle.rt_words.specs.Base.{base};
ghost use Rattle.rt_words.specs.Limits.{is_ram_size, symbol_limit, line_limit, image_limit, tick_limit};
ghost use Rattle.rt_image.specs.ObjectFile.{label, labels};
ghost use Rattle.rt_image.specs.SystemFile.{set_task};
ghost use Rattle.rt_names.specs.Parts.{part, namer};
ghost use Rattle.rt_profile.specs.CallgrindText.{is_empty};
ghost use Rattle.rt_profile.specs.Counted.{first_counts, word_count, word_at, passed_at, with_pc, with_outcome, finished, IsPartWithin, IsSound};
ghost use Rattle.rt_profile.specs.NeedCounts.{ticked, NeedState, AreSoundNeeds};
ghost use Rattle.rt_profile.specs.Working.Told.{kept_at, kept_row, told, executed};

use crate::need_counts::NeedCounts;
use crate::part_count::PartCount;
use crate::parts::{part_of, parts_of_words};
use crate::row::Row;
use crate::walk::Walk;
use rt_history::AttemptOutcome;
use rt_image::{Symbol, Task};
use rt_names::Places;
use rt_words::RAM_BASE;
use std::alloc::{AllocError, Global};
use std::marker::Model;

/// The ticks of a task by word of RAM and by part, its finished jobs and their needs, and the pc of a fetch outside RAM.
#[derive(Drop)]
pub(crate) struct TaskProfile<'s, 'b> {
    symbols: &'s [Symbol<'b>],
    places: Places<'s, 'b>,
    /// The number of each word's part.
    parts_of_words: Vec<u32>,
    words: Vec<u64>,
    parts: Vec<PartCount>,
    outside: Option<u32>,
    jobs: u64,
    needs: NeedCounts,
}

impl<'s, 'b> Model for TaskProfile<'s, 'b> {
    ghost use Rattle.std.specs.Prelude.{length};
    ghost use Rattle.rt_image.specs.ObjectFile.{labels};
    ghost use Rattle.rt_profile.specs.Counted.{TaskCounts, IsTable};

    ghost Value = { TaskCounts };

    ghost view = { λ t. record { labels = labels t.symbols.now; words = t.words.items; parts = t.parts.items; outside = t.outside; jobs = t.jobs; needs = t.needs } };

    ghost invariant = { λ t. IsTable (labels t.symbols.now) t.places t.parts_of_words.items (length t.words.items) (length t.parts.items) t.outside };
}

impl<'s, 'b> TaskProfile<'s, 'b> {
    /// A task without records. All room that it needs is taken here.
    ///
    /// # Errors
    ///
    /// There is no memory for it.
    pub(crate) fn new(alloc: Global, task: &'s Task<'b>) -> Result<TaskProfile<'s, 'b>, AllocError>
        requires few { length task.now.object.symbols.items ≤ symbol_limit }
        requires size { is_ram_size task.now.ram ≡ true }
        requires image { length task.now.object.bytes.now ≤ image_limit }
        requires names { All (λ l. length l.name ≤ line_limit) (labels task.now.object.symbols.items) }
        ensures { IfOk result (λ made. made ≡ first_counts (labels task.now.object.symbols.items) (word_count (set_task task.now))) }
    {
        let symbols = task.object.symbols.as_slice();
        let words = (task.object.bytes.len().max(task.ram as usize) + 3) / 4;
        let places = Places::new(alloc, symbols)?;
        let parts_of_words = parts_of_words(alloc, symbols, words)?;
        let counts = vec![in alloc; 0u64; words]?;
        let parts = vec![in alloc; PartCount::new(); symbols.len() + 1]?;
        let needs = NeedCounts::new(alloc)?;
        Ok(TaskProfile {
            symbols,
            places,
            parts_of_words,
            words: counts,
            parts,
            outside: None,
            jobs: 0,
            needs,
        })
    }

    /// The number of the word at an address, where it is one of RAM.
    #[inline(always)]
    fn word_of(&self, address: u32) -> Option<usize>
        ensures { result ≡ word_at (length self.now.words) address }
    {
        if address % 4 != 0 || address < RAM_BASE {
            return None;
        }
        let word = ((address - RAM_BASE) / 4) as usize;
        if word < self.words.len() {
            Some(word)
        } else {
            None
        }
    }

    /// The number of a word's part.
    #[inline(always)]
    fn part_of_word(&self, word: usize) -> u32
        requires { word < length self.now.words }
        ensures value { result ≡ part self.now.labels (base + 4 * word) }
        ensures within { result < length self.now.parts }
    {
        self.parts_of_words[word]
    }

    /// The number of the part of an address.
    pub(crate) fn part_at(&self, address: u32) -> u32
        ensures value { result ≡ part self.now.labels address }
        ensures within { result < length self.now.parts }
    {
        match self.word_of(address) {
            Some(word) => self.part_of_word(word),
            None => part_of(self.symbols, address),
        }
    }

    /// Counts a tick of a part.
    #[inline(always)]
    fn count_part(&mut self, part: u32)
        requires within { part < length self.old.parts }
        requires room { All (IsPartWithin tick_limit) self.old.parts }
        ensures { self.new ≡ record self.old { parts = passed_at self.old.jobs self.old.parts part } }
    {
        let job = self.jobs;
        self.parts[part as usize].pass(job);
    }

    /// Counts a tick at a word.
    #[inline(always)]
    fn count_word(&mut self, word: usize)
        requires within { word < length self.old.words }
        requires room { slice_index self.old.words word + 1 < 2 ^ 64 }
        ensures { self.new ≡ record self.old { words = slice_set self.old.words word (slice_index self.old.words word + 1) } }
    {
        self.words[word] += 1;
    }

    /// Counts a tick of the open job.
    #[inline(always)]
    fn count_tick(&mut self)
        requires { self.old.needs.current + 1 < 2 ^ 64 }
        ensures { self.new ≡ record self.old { needs = ticked self.old.needs } }
    {
        self.needs.add_tick();
    }

    /// Counts a tick by its pc, which is that of a word.
    #[inline(always)]
    fn count_inside(&mut self, word: usize)
        requires within { word < length self.old.words }
        requires sound { IsSound tick_limit self.old }
        ensures { self.new ≡ record self.old {
          words = slice_set self.old.words word (slice_index self.old.words word + 1);
          parts = passed_at self.old.jobs self.old.parts (part self.old.labels (base + 4 * word));
          needs = ticked self.old.needs;
        } }
    {
        let part = self.part_of_word(word);
        self.count_part(part);
        self.count_word(word);
        self.count_tick();
    }

    /// Counts a tick by its pc, which is that of no word of RAM.
    #[cold]
    #[inline(never)]
    fn count_outside(&mut self, pc: u32)
        requires outside { word_at (length self.old.words) pc ≡ None }
        requires sound { IsSound tick_limit self.old }
        ensures { self.new ≡ record self.old {
          outside = Some pc;
          parts = passed_at self.old.jobs self.old.parts (part self.old.labels pc);
          needs = ticked self.old.needs;
        } }
    {
        let part = self.part_at(pc);
        self.count_part(part);
        self.note_outside(pc);
        self.count_tick();
    }

    /// Notes the pc of a tick that is at no word of RAM.
    fn note_outside(&mut self, pc: u32)
        requires { word_at (length self.old.words) pc ≡ None }
        ensures { self.new ≡ record self.old { outside = Some pc } }
    {
        self.outside = Some(pc);
    }

    /// Counts a tick by its pc.
    #[inline(always)]
    fn count_pc(&mut self, pc: u32)
        requires { IsSound tick_limit self.old }
        ensures { self.new ≡ with_pc pc self.old }
    {
        match self.word_of(pc) {
            Some(word) => self.count_inside(word),
            None => self.count_outside(pc),
        }
    }

    /// Counts the open job, which is finished.
    fn finish_job(&mut self)
        requires jobs { self.old.jobs ≤ tick_limit }
        requires need { self.old.needs.current < 2 ^ 41 }
        requires room { All (λ n. n ≤ tick_limit) self.old.needs.counts }
        ensures { self.new ≡ finished self.old }
    {
        self.jobs += 1;
        self.needs.finish_job();
    }

    /// Counts the open job where the record finishes it.
    #[inline(always)]
    fn count_outcome(&mut self, outcome: AttemptOutcome)
        requires jobs { self.old.jobs ≤ tick_limit }
        requires need { self.old.needs.current < 2 ^ 41 }
        requires room { All (λ n. n ≤ tick_limit) self.old.needs.counts }
        ensures { self.new ≡ with_outcome outcome self.old }
    {
        match outcome {
            AttemptOutcome::Sleep(_) | AttemptOutcome::End => self.finish_job(),
            _ => {}
        }
    }

    /// Takes a record of the task. Takes no memory.
    #[inline(always)]
    pub(crate) fn take(&mut self, pc: u32, outcome: AttemptOutcome)
        requires { IsSound tick_limit self.old }
        ensures { self.new ≡ with_outcome outcome (with_pc pc self.old) }
    {
        self.count_pc(pc);
        self.count_outcome(outcome);
    }

    /// The needs of its finished jobs.
    pub(crate) fn needs(&self) -> &NeedCounts
        ensures { result.now ≡ self.now.needs }
    {
        &self.needs
    }

    /// The ticks at an address.
    pub(crate) fn ticks_at(&self, address: u32) -> u64
        ensures { result ≡ kept_at self.now address }
    {
        match self.word_of(address) {
            Some(word) => self.words[word],
            None => match self.outside {
                Some(pc) => u64::from(pc == address),
                None => 0,
            },
        }
    }

    /// The ticks at the first address of the part that this symbol names.
    fn entered_at(&self, symbol: Option<Symbol<'b>>) -> u64
        ensures { result ≡ option_map_or (λ l. kept_at self.now l.address) (option_map label symbol.entry) 0 }
    {
        match symbol {
            Some(symbol) => self.ticks_at(symbol.address),
            None => 0,
        }
    }

    /// The symbol that names the part of an address.
    pub(crate) fn namer_at(&self, address: u32) -> Option<Symbol<'b>>
        ensures named { option_map label result ≡ namer self.now.labels address }
        ensures short { IfSome result (λ s. length s.name.now ≤ line_limit) }
    {
        self.places.namer_at(address)
    }

    /// The row of the part of an address, the task having this number.
    pub(crate) fn row_of(&self, task: u32, address: u32) -> Row<'b>
        ensures row { told result ≡ kept_row task self.now address }
        ensures short { IfSome result.symbol (λ s. length s.name.now ≤ line_limit) }
    {
        let symbol = self.namer_at(address);
        let part = self.parts[self.part_at(address) as usize];
        Row {
            task,
            symbol,
            ticks: part.ticks,
            entered: self.entered_at(symbol),
            most: part.most(),
        }
    }

    /// Whether it has no ticks.
    pub(crate) fn is_idle(&self) -> bool
        ensures { result ≡ is_empty (executed self.now) }
    {
        self.walk().next().is_none()
    }

    /// The addresses with ticks, in rising order.
    pub(crate) fn walk(&self) -> Walk<'_>
        ensures all { result ≡ executed self.now }
        ensures few { length result ≤ 2 ^ 18 + 1 }
    {
        Walk::new(&self.words, self.outside)
    }
}
