//! The command `post`.

ghost use Rattle.std.specs.Prelude.{◌≡◌};
ghost use Rattle.qd_words.specs.NetAsking.{posted};
ghost use Rattle.qds_net.specs.Posting.{PostsFile, PostsOf, PostsTo, end_of_post};
ghost use Rattle.qds_net.specs.Worlds.{World};

use qd_client::post_over;
use qd_items::RunEnd;
use qd_net::{Conn, Net};
use qd_outside::{FileSource, Files, Source};
use qd_scheme::Scheme;
use qd_words::PostAsk;
use qds_tools::ProgramEnd;
use std::alloc::Global;

/// Posts a file, or standard input where none is named. The file is opened before the server is dialled.
pub(crate) fn post<F: Files, N: Net, S: Source>(
    alloc: Global,
    ask: PostAsk<'_>,
    scheme: &Scheme,
    files: &mut F,
    net: &mut N,
    input: &mut S,
) -> ProgramEnd
    ensures { (o : World) → PostsOf (posted ask.entry).file scheme.now ask.entry.addr.now result (record o { files = F.told files.old; net = N.told net.old; left = S.left input.old; reads = S.faults input.old })
        (record o { files = F.told files.new; net = N.told net.new; left = S.left input.new; reads = S.faults input.new }) }
{
    match ask.file {
        Some(name) => post_file(alloc, ask.addr, name, scheme, files, net),
        None => post_text(alloc, ask.addr, scheme, input, net),
    }
}

/// Posts the file of this name.
fn post_file<F: Files, N: Net>(
    alloc: Global,
    addr: &str,
    name: &str,
    scheme: &Scheme,
    files: &mut F,
    net: &mut N,
) -> ProgramEnd
    ensures { PostsFile scheme.now addr.now name.now result (F.told files.old) (F.told files.new) (N.told net.old) (N.told net.new) }
{
    if !files.open_in(name) {
        return ProgramEnd::Ran(RunEnd::ReadFault);
    }
    let mut source = FileSource::new(files);
    post_text(alloc, addr, scheme, &mut source, net)
}

/// Posts a text over a connection that is dialled first and hung up behind it.
fn post_text<N: Net, S: Source>(
    alloc: Global,
    addr: &str,
    scheme: &Scheme,
    source: &mut S,
    net: &mut N,
) -> ProgramEnd
    ensures kept { S.kept source.new ≡ S.kept source.old }
    ensures posts { PostsTo scheme.now addr.now (record { left = S.left source.old; reads = S.faults source.old }) result (record { left = S.left source.new; reads = S.faults source.new }) (N.told net.old) (N.told net.new) }
{
    let Some(connection) = net.dial(addr) else {
        return ProgramEnd::NetFault;
    };
    let (input, mut output) = match connection.halves(alloc) {
        Ok(halves) => halves,
        Err(_) => return ProgramEnd::Ran(RunEnd::NoMemory),
    };
    let end = post_over(alloc, scheme, source, &mut output);
    net.hang_up(input, output);
    end_of_post(end)
}

/// The end of the program where a post ends so.
fn end_of_post(end: RunEnd) -> ProgramEnd
    ensures { result ≡ end_of_post end }
{
    match end {
        RunEnd::WriteFault => ProgramEnd::NetFault,
        end => ProgramEnd::Ran(end),
    }
}
