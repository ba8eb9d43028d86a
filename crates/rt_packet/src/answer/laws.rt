//! Laws of all answers. Each function does nothing: its clause is the law, and a caller has it after the call.

ghost use Rattle.std.specs.Prelude.{ℕ, List, IfSome};
ghost use Rattle.rt_packet.specs.Framed.{IsPlain};
ghost use Rattle.rt_packet.specs.declared.answer.ids.Ids.{Ids};
ghost use Rattle.rt_packet.specs.declared.answer.stops.Stop.{Stop};
ghost use Rattle.rt_packet.specs.declared.answer.replies.Reply.{Reply};
ghost use Rattle.rt_packet.specs.declared.answer.registers.TaskNumbers.{TaskNumbers};
ghost use Rattle.rt_packet.specs.answer.Ids.{task_text, tasks_text};
ghost use Rattle.rt_packet.specs.answer.Stops.{stop_text};
ghost use Rattle.rt_packet.specs.answer.Replies.{reply_text, supported_text};
ghost use Rattle.rt_packet.specs.answer.Registers.{registers_text, register_text};
ghost use Rattle.rt_packet.specs.answer.Bytes.{memory_text, bytes_text, console_text};
ghost use Rattle.rt_packet.specs.answer.Description.{piece_text};
ghost use Rattle.rt_packet.specs.answer.Plain.{IsCarried};

/// Each answer has printable bytes alone, and none of `#`, `$`, `*` and `}`.
pub fn answers_are_carried()
    ensures task { (ids : Ids) (task : ℕ) → IsCarried (task_text ids task) }
    ensures tasks { (ids : Ids) (tasks : List ℕ) → IsCarried (tasks_text ids tasks) }
    ensures stop { (ids : Ids) (stop : Stop) (task : ℕ) → IsCarried (stop_text ids stop task) }
    ensures reply { (reply : Reply) → IsCarried (reply_text reply) }
    ensures supported { (ids : Ids) → IsCarried (supported_text ids) }
    ensures registers { (x : List ℕ) (pc : ℕ) → IsCarried (registers_text x pc) }
    ensures register { (numbers : TaskNumbers) (n : ℕ) → IfSome (register_text numbers n) IsCarried }
    ensures memory { (ram : List ℕ) (address count : ℕ) → IfSome (memory_text ram address count) IsCarried }
    ensures bytes { (bytes : List ℕ) → IsCarried (bytes_text bytes) }
    ensures console { (text : List ℕ) → IsCarried (console_text text) }
    ensures description { (offset count : ℕ) → IsCarried (piece_text offset count) }
{}

/// Such a payload reads back from its packet.
pub fn carried_payloads_are_plain()
    ensures { (payload : List ℕ) → IsCarried payload → IsPlain payload }
{}
