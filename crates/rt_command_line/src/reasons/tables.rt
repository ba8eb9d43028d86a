//! The reasons: a table of each kind, in the order of docs/FAULTS.md, whose lists `tools/faults` writes from these.
//!
//! A table's first line says what its reasons are of, and the exit status. Each other line is a row: the number that the debugger shows
//! (`-` if none), the word that help takes, what is printed, the cause, and what to do. Words in backquotes and links are written as the
//! page has them; a terminal shows the words alone.

/// All tables.
pub static TABLES: [&str; 14] = [
    "instructions; the task stops, status 0
1|Illegal|Illegal|the word at pc is no RV32I instruction|if the word is `00000000`, the program ran past its end: end it by call 0, or jump back. Else it executes data or an extension: build C with `-march=rv32i`
2|JumpMisaligned|JumpMisaligned|a jump or taken branch leads to no multiple of 4|put `.align 2` between data and code; with `jalr`, look at the register
3|FetchAccess|FetchAccess|the four bytes at pc aren't all in RAM; the word shows as `--------`|look for a jump through a wrong register (`ret` without `ra`), or a run past the end of RAM
4|LoadMisaligned|LoadMisaligned|the address of a load is no multiple of its 2 or 4 bytes|look for a cast in C; put `.align 2` before the data, access bytes, or begin the task's line with `task-split`
5|LoadAccess|LoadAccess|a load is of bytes that aren't all in RAM|RAM begins at 0x80000000; the task's line or `--ram` has its size, for C at least that of `link.ld`. In assembly set `sp`: it begins at 0
6|StoreMisaligned|StoreMisaligned|the address of a store is no multiple of its 2 or 4 bytes|look for a cast in C; put `.align 2` before the data, access bytes, or begin the task's line with `task-split`
7|StoreAccess|StoreAccess|a store is of bytes that aren't all in RAM|RAM begins at 0x80000000; the task's line or `--ram` has its size, for C at least that of `link.ld`. In assembly set `sp`: it begins at 0
8|Break|Break|the program executed `ebreak`|remove it, unless you want the stop
9|UnknownCall|UnknownCall|an `ecall` has a number in `a7` that isn't 0 to 5|set `a7` before each `ecall`: 0 end, 1 write, 2 sleep, 3 yield, 4 now, 5 reserve",
    "object and system files; status 1
1|BadMagic|BadMagic|the file doesn't begin with `RTI1` (an object), `RTS1` or `RTS2` (a system)|make objects (for `solo`, `certify`, `dis`, `pack`) by `asm`, `image` or `elf`, systems (for the others) by `pack` or `convert`
2|Truncated|Truncated|the file ends within a field|make it again: the disk was full, or a copy was cut
3|Trailing|Trailing|bytes follow the last field|make it again
4|BadField|BadField|a number exceeds its [limit](FORMATS.md#limits), a symbol's name is no word, its address lies outside the image, or flags in version Two aren't 0 or 1|mend the program that wrote the file
5|NotCanonical|NotCanonical|a symbol's name isn't above the one before it, byte by byte|mend the program: it must sort symbols by name, each once",
    "set files; status 1
-|set|set file line <n>|this line is the first faulty one|look for two spaces, a line of spaces, a leading zero, RAM that is no multiple of 4, a 257th task; see `rt_sim help pack`",
    "flat images; status 1
-|IsElf|IsElf|the image is an ELF file|use `rt_sim elf`
-|TooLarge|TooLarge|the image has over 1,048,576 bytes|make it smaller
-|Misplaced|Misplaced|no name of the list lies in the image: the second line says where both lie|link the image to 0x80000000, or give the list of the same program
-|BadEntry|BadEntry|`--entry` is no multiple of 4, no word of the image, or no name of the list|give an address with `0x`, or a name of the list of `--symbols`
-|symbols|symbols line <n>|this line of the list isn't eight hexadecimal digits, a byte and a name with single spaces, or is one symbol too many|make the list by `nm`: `rt_sim help image`",
    "flat images and ELF files; status 0
-|names|names left out: <n>|no object may have these names|see [docs/C.md](C.md#names) if you need them
-|built|built for rv32im: instructions of M fault ..|`.riscv.attributes` names extensions that the machine lacks|compile and link all parts, libgcc too, with `-march=rv32i -mabi=ilp32`",
    "ELF files; status 1
-|TooLarge|TooLarge|the file has over 67,108,864 bytes|`objcopy --strip-debug`: at most 67,108,864 bytes
-|BadMagic|BadMagic|the file isn't in ELF|give what the linker wrote; `image` takes what `objcopy -O binary` made
-|Truncated|Truncated|the file ends before something that its headers name|make it again: the disk was full, or a copy was cut
-|Not32Bit|Not32Bit|the program is for 64 bits|compile and link all parts, libgcc too, with `-march=rv32i -mabi=ilp32`
-|NotLittleEndian|NotLittleEndian|the highest byte of a number comes first|compile and link all parts, libgcc too, with `-march=rv32i -mabi=ilp32`
-|NotRiscV|NotRiscV|the program is for another machine|compile and link all parts, libgcc too, with `-march=rv32i -mabi=ilp32`
-|Compressed|Compressed|the program has compressed instructions|compile and link all parts, libgcc too, with `-march=rv32i -mabi=ilp32`
-|FloatAbi|FloatAbi|the program passes floats in registers that the machine lacks|compile and link all parts, libgcc too, with `-march=rv32i -mabi=ilp32`
-|OtherAbi|OtherAbi|the program has other flags, as those of RV32E|compile and link all parts, libgcc too, with `-march=rv32i -mabi=ilp32`
-|Relocatable|Relocatable|the file is an object of the compiler|link it
-|Shared|Shared|the file is a library, or independent of its position|link with `-static -no-pie`
-|Dynamic|Dynamic|the program needs a dynamic loader|link with `-static -no-pie`
-|NotExecutable|NotExecutable|the file is no program|give the linked program, not a core dump or what only debuggers read
-|Empty|Empty|no segment has a byte|give the linked program, not a core dump or what only debuggers read
-|OutsideRam|OutsideRam|a segment is loaded, or runs, outside of 0x80000000 to 0x80100000|load and run all segments in 0x80000000 to 0x80100000 by a linker script ([docs/C.md](C.md#what-the-build-does))
-|Overlap|Overlap|two segments are loaded to one address|mend the linker script, or the program that wrote the file
-|BadSegment|BadSegment|a segment has more bytes in the file than in memory|mend the linker script, or the program that wrote the file
-|BadHeader|BadHeader|the file has over 256 program headers, or headers of another size|mend the linker script, or the program that wrote the file
-|BadSymbols|BadSymbols|the symbol table or its names are faulty|`strip` it: an object needs no symbols
-|TooManySymbols|TooManySymbols|the symbol table has over 1,048,576 entries, or over 65,536 symbols would be kept|`strip` it: an object needs no symbols
-|NoSymbol|NoSymbol|`--data`, of `image` too, names no symbol of the object|name one that `rt_sim show` lists
-|DataTooLarge|DataTooLarge|the file of `--data`, of `image` too, passes the end of its symbol or of RAM|shorten it",
    "sets that aren't admitted; status 1
1|NoTasks|NoTasks|the set has no task|add one
2|TooMany|TooMany|the set has over 64 tasks|take at most 64
3|BadHyper|BadHyper|the hyperperiod is 0, or over 4,194,304|take a common multiple of the periods from 1 to 4,194,304; round periods until there is one
4|ZeroBudget|ZeroBudget task <i>|the task's budget is 0|give the task at least 1 tick
5|BudgetOverPeriod|BudgetOverPeriod task <i>|the task's budget exceeds its period|lower the budget, or lengthen the period
6|NotDivisor|NotDivisor task <i>|the task's period doesn't divide the hyperperiod|change the period, or take a hyperperiod that all periods divide
7|Overload|Overload total <total> hyper <hyper>|the budgets exceed the processor|lower budgets or lengthen periods until the total is at most the hyperperiod, or run it all the same by --overloaded",
    "loading; status 1
-|BadSize|BadSize|`--ram` of `solo` or `certify` is no size that RAM may have|give `--ram` a multiple of 4 from 4 to 1,048,576
-|ImageTooBig|ImageTooBig task <i>|the image exceeds the task's RAM|give the task more RAM than its image, zeros at its end (`.zero`) too
-|BadEntry|BadEntry task <i>|the entry is no multiple of 4, or its word isn't in RAM|put `.align 2` before `_start`, or give RAM that has its word. For a flat image write `--entry` with `0x`, else the number is decimal",
    "certificates; status 1
-|OverBudget|OverBudget .. release <r> ticks <n>|the job isn't finished after `--periods` times `--budget` ticks|raise one of them, or ask for fewer jobs
-|TooSoon|TooSoon .. release <r> sleep <w>|the job sleeps until less than `--period` after its release; with `periods <k>`, it takes k budgets, and sleeps less than k periods|shorten the period; without `--period`, `distance` shows the longest
-|Yields|Yields|the job yields|look at `report`: such jobs have no certificate
-|Asks|Asks|the job calls `now` or `reserve`|look at `report`: such jobs have no certificate
-|Faults|Faults .. <Name>|the attempt faults|look the fault up: `rt_sim help <Name>`",
    "text of a source; status 1
5|LineTooLong|LineTooLong|the line has over 512 bytes|break it in two
6|NotAscii|NotAscii|a byte is over 127, in a comment too|write ASCII
1|BadToken|BadToken|a byte begins no token (`;`, `+`, `'`, `%`, `=`, `/`), an escape is unknown, a string doesn't end|see [docs/ASSEMBLY.md](ASSEMBLY.md#lines)
2|BadNumber|BadNumber|a number has leading zeros or letters (`1b`), or is outside -2^31 to 2^32 - 1|write 15 or 0xf for an octal 017; labels can't be numbers
3|UnknownName|UnknownName|no instruction or directive has this name|write names in lower case; see [docs/ASSEMBLY.md](ASSEMBLY.md#instructions)
4|BadOperands|BadOperands|the operands don't fit the name, or a statement begins with no name (`1:`)|see the name's row in [docs/ASSEMBLY.md](ASSEMBLY.md#instructions)",
    "layout and operands of a source; status 1
1|DuplicateLabel|DuplicateLabel|the label was defined before|rename one
3|OutOfRange|OutOfRange|a count of `.zero`, `.space` or `.align` is below 0 or over its limit|write at most 1,048,576, or 12 for `.align`
5|TooLarge|TooLarge|the image has over 1,048,576 bytes, or the source over 65,536 labels|make it smaller
2|UndefinedLabel|UndefinedLabel|no line defines the label|define it, or correct its name; there are no labels of other files
3|OutOfRange|OutOfRange|a number exceeds what its place holds, or a target is too far away|see [docs/ASSEMBLY.md](ASSEMBLY.md#instructions); for a far target branch around a `j` or a `call`
4|OddTarget|OddTarget|the distance to a target is odd|put `.align 2` before the target
6|NoEntry|NoEntry|no line defines `_start`; at line 0|define it where the program begins",
    "commands of the debugger; the session goes on
1|UnknownCommand|UnknownCommand|the line is no command: an unknown word, two spaces, a number with leading zeros or out of range, over 512 bytes|see `rt_sim help debug`: single spaces, no leading zeros, ticks 1 to 1099511627776
2|UnknownTask|UnknownTask|no task has this number, or not one alone this name|count tasks from 0, or give one task's name
3|UnknownSymbol|UnknownSymbol|the task's object has no such symbol|see the object's symbols by `rt_sim dis`
4|BadAddress|BadAddress|the bytes aren't all in the task's RAM, or an address of words is no multiple of 4|put `0x` before an address, from 0x80000000 to the end of the task's RAM, for words a multiple of 4
5|BeforeStart|BeforeStart|the way back passes the first tick|go back fewer ticks
6|NoSuchStop|NoSuchStop|no stop has this number, or it was deleted|take the number from the reply to `break`
7|TooManyStops|TooManyStops|65,535 stops were added before|begin a new session after 65,535 stops
0|NoMemory|NoMemory|no memory is left for the reply, the stop or the way back|take less RAM or fewer tasks",
    "files, devices and memory; status 3
-|file|file <path>|the file can't be opened, read or made: `no such file`, `permission denied`, `also the input` or the like; `permission denied in its folder` is of the new file beside OUT|a set file's PATH is seen from the folder in which `rt_sim` runs; `file -` is the standard input of `debug`
-|device|device after <n> bytes|writing failed behind the first n bytes; the second line names OUT or standard output and says why|the disk is full, say; where a pipe's reader has gone (as with `head`), the program ends with status 141 and no line
-|memory|memory|there is no memory|take less RAM or fewer tasks. A run that has begun never ends so",
    "command line; status 2
-|error|error: ..|a word is missing or unknown, or a number out of range (`--ticks` 0 to 1099511627776, `--ram` 0 to 4294967295)|see `rt_sim help` and `rt_sim help <COMMAND>`
-|command|the command line cannot be read|a word isn't UTF-8, `--entry` has no address, `--name` no name, `--timescale` no scale, or a window would pass tick 2^40|rename the file; write an address as `0x80000000`, a scale as `10us`; begin earlier",
];
