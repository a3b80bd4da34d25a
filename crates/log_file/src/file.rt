ghost use Rattle.std.specs.Prelude.{◌≡◌, ◌≢◌, ◌↔◌, ℕ, List, [], length, Some, Err, IsOk, IfOk, IfErr};
ghost use Rattle.std.specs.Fs.{IsFile, file_type};
ghost use Rattle.command_log.specs.Reading.{IsWholeLog};
ghost use Rattle.command_log.specs.Text.{head_line};
ghost use Rattle.command_log.specs.declared.version.LogVersion.TheVariants.{Two};
ghost use Rattle.command_log.specs.declared.faults.LogFault.TheVariants.{Unbegun};
ghost use Rattle.log_file.specs.declared.faults.ReadFault.TheVariants.{NoLog};
ghost use Rattle.log_file.specs.Bytes.{grown};
ghost use Rattle.log_file.specs.Logs.{HoldsLog};
ghost use Rattle.log_file.specs.Faults.{IsUnreadBy};
ghost use Rattle.log_file.specs.Opening.{CutsOff, HoldsOpened, IsOpenedOf, IsReadOf, KeepsOpened, Opens};
ghost use Rattle.log_file.specs.States.{IsIdle};

use crate::durable::Durable;
use crate::faults::{OpenFault, ReadFault};
use crate::locked::Locked;
use crate::reader::Recovered;
use crate::storage::Storage;
use crate::writer::LogWriter;
use ballot::Members;
use bean_words::Op;
use command_log::LogFault;
use object::Command;
use std::alloc::Global;
use std::fs::{File, Metadata, OpenOptions};
use std::io;
use std::os::unix::fs::OpenOptionsExt;
use std::path::Path;
use std::rt::Files;

/// A log that is open. One in a file is locked for as long as it is.
#[derive(Drop)]
pub struct OpenedLog<W> {
    pub log: LogWriter<W>,
    /// Those of its head.
    pub members: Members,
    /// The commands that it has, in their order.
    pub commands: Vec<Command<Op>>,
    /// How many bytes were cut off behind it, which were no log.
    pub cut: u64,
}

/// Opens the log in the file of this path, as the only one who has it. What was torn off at its end is cut off. Where there
/// is no log as yet, one of these members begins. All of it is kept then.
pub fn open_log<R: Files<File = File> + AllocGlobal>(
    rt: &R,
    path: &str,
    members: Members,
) -> Result<OpenedLog<Locked<File>>, OpenFault>
    ensures { IfOk result (λ opened. IsIdle opened.log) }
{
    let file = open_file(rt, path).map_err(OpenFault::FileFailed)?;
    check_regular(&file.metadata().map_err(OpenFault::FileFailed)?)?;
    let file = Locked::lock(file)?;
    sync_folder(rt, path).map_err(OpenFault::FileFailed)?;
    open_in(rt.alloc(), file, members)
}

/// Opens the log in a file whose lock is ours. What was torn off at its end is cut off. Where there is no log as yet, one of
/// these members begins, in place of what the file holds. All of it is kept then.
pub fn open_in<F: Storage + Drop>(
    alloc: Global,
    file: Locked<F>,
    members: Members,
) -> Result<OpenedLog<Locked<F>>, OpenFault>
    ensures idle { IfOk result (λ opened. IsIdle opened.log) }
    ensures opens { IfOk result (λ opened. (text : List ℕ) → F.contents file ≡ Some text
        → IsOpenedOf text members opened.members opened.commands.items opened.cut) }
    ensures holds { IfOk result (λ opened. (text : List ℕ) → F.contents file ≡ Some text
        → HoldsOpened F.contents opened) }
    ensures kept { IfOk result (KeepsOpened F.contents F.kept) }
    ensures fault { (text : List ℕ) → F.contents file ≡ Some text
        → IfErr result (IsUnreadBy (λ fault. IsReadOf text (Err fault) × (fault ≢ NoLog Unbegun))) }
{
    let read = file.read_log(alloc);
    open_read(alloc, file, read, members)
}

// The log in a file, of which this was read. It goes on, or one of these members begins where none was begun; of what is
// read otherwise none is opened.
fn open_read<F: Storage + Drop>(
    alloc: Global,
    file: Locked<F>,
    read: Result<Recovered, ReadFault>,
    members: Members,
) -> Result<OpenedLog<Locked<F>>, OpenFault>
    ensures idle { IfOk result (λ opened. IsIdle opened.log) }
    ensures opens { IfOk result (λ opened.
        Opens read members opened.members opened.commands.items opened.cut) }
    ensures cut { IfOk result (λ opened. (text : List ℕ) → F.contents file ≡ Some text
        → CutsOff text read opened.cut) }
    ensures holds { IfOk result (λ opened. (text : List ℕ) → F.contents file ≡ Some text
        → IsReadOf text read → HoldsOpened F.contents opened) }
    ensures kept { IfOk result (KeepsOpened F.contents F.kept) }
    ensures fault { IfErr result (IsUnreadBy
        (λ fault. (read ≡ Err fault) × (fault ≢ NoLog Unbegun))) }
{
    match read {
        Ok(recovered) => go_on(alloc, file, recovered),
        Err(ReadFault::NoLog(LogFault::Unbegun)) => begin_anew(alloc, file, members),
        Err(fault) => Err(OpenFault::Unread(fault)),
    }
}

// The log goes on behind what was read of it.
fn go_on<F: Storage + Drop>(
    alloc: Global,
    file: Locked<F>,
    recovered: Recovered,
) -> Result<OpenedLog<Locked<F>>, OpenFault>
    ensures idle { IfOk result (λ opened. IsIdle opened.log) }
    ensures members { IfOk result (λ opened. opened.members ≡ recovered.whole.members) }
    ensures commands { IfOk result (λ opened. opened.commands.items ≡ recovered.commands.items) }
    ensures cut { IfOk result (λ opened. opened.cut ≡ recovered.behind) }
    ensures len { IfOk result (λ opened. opened.log.len ≡ recovered.whole.bytes) }
    ensures holds { IfOk result (λ opened. (text : List ℕ) → F.contents file ≡ Some text
        → IsWholeLog text recovered.whole recovered.commands.items
        → HoldsOpened F.contents opened) }
    ensures kept { IfOk result (KeepsOpened F.contents F.kept) }
    ensures fault { IfErr result (IsUnreadBy (λ _. ⊥)) }
{
    let mut file = file;
    let Recovered {
        whole,
        commands,
        behind,
    } = recovered;
    file.cut(whole.bytes).map_err(OpenFault::FileFailed)?;
    Ok(OpenedLog {
        log: LogWriter::resume(alloc, file, whole.bytes, whole.chain),
        members: whole.members,
        commands,
        cut: behind,
    })
}

// A new log begins, in place of what the file holds.
fn begin_anew<F: Storage + Drop>(
    alloc: Global,
    file: Locked<F>,
    members: Members,
) -> Result<OpenedLog<Locked<F>>, OpenFault>
    ensures idle { IfOk result (λ opened. IsIdle opened.log) }
    ensures members { IfOk result (λ opened. opened.members ≡ members) }
    ensures commands { IfOk result (λ opened. opened.commands.items ≡ []) }
    ensures cut { IfOk result (λ opened. (text : List ℕ) → F.contents file ≡ Some text
        → opened.cut ≡ length text) }
    ensures len { IfOk result (λ opened. opened.log.len ≡ grown 0 (head_line Two members)) }
    ensures holds { IfOk result (λ opened. (text : List ℕ) → F.contents file ≡ Some text
        → HoldsLog (F.contents opened.log.writer) [] opened.log.chain members []) }
    ensures kept { IfOk result (KeepsOpened F.contents F.kept) }
    ensures fault { IfErr result (IsUnreadBy (λ _. ⊥)) }
{
    let mut file = file;
    let len = file.size().map_err(OpenFault::FileFailed)?;
    file.cut(0).map_err(OpenFault::FileFailed)?;
    let mut log = LogWriter::begin(alloc, file, members)?;
    log.keep().map_err(OpenFault::Unkept)?;
    Ok(OpenedLog {
        log,
        members,
        commands: Vec::new(alloc),
        cut: len,
    })
}

// Opens the file, which is its owner's alone where it is new. All that is written goes to its end.
fn open_file<R: Files<File = File>>(rt: &R, path: &str) -> io::Result<File> {
    let mut options = OpenOptions::new();
    options.read(true).append(true).create(true);
    options.mode(0o600);
    options.open(rt, path)
}

// A pipe, a device or a folder is no log, and isn't read. A pipe that is opened to be read and written doesn't wait.
fn check_regular(metadata: &Metadata) -> Result<(), OpenFault>
    ensures { IsOk result ↔ IsFile (file_type metadata.now) }
{
    if !metadata.is_file() {
        return Err(OpenFault::NotAFile);
    }
    Ok(())
}

// Keeps the file's name in its folder.
fn sync_folder<R: Files<File = File>>(rt: &R, path: &str) -> io::Result<()> {
    let folder = match Path::new(path).parent() {
        Some(folder) if !folder.as_str().is_empty() => folder.as_str(),
        _ => ".",
    };
    File::open(rt, folder)?.sync_all()
}
