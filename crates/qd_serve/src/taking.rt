//! The hub takes in the clients of a link that ended.

ghost use Rattle.std.specs.Prelude.{◌≡◌};
ghost use Rattle.qd_hub.specs.Clients.{Client};
ghost use Rattle.qd_net.specs.Meeting.{HangsUp};
ghost use Rattle.qd_serve.specs.Steps.{TakesIn};

use crate::ends::Told;
use qd_hub::HubClient;
use qd_net::{Conn, Net};
use qd_serve_link::LinkBack;

/// The hub takes in the clients of a link that ended, and its connection is hung up.
pub fn take_in<N: Net>(
    hub: &mut HubClient,
    net: &mut N,
    link: u8,
    back: LinkBack<<N::Conn as Conn>::In, <N::Conn as Conn>::Out>,
) -> Told
    requires reader { back.reader.home ≡ hub.old.home }
    requires writer { back.writer.home ≡ hub.old.home }
    ensures clients { (between : Client) × TakesIn hub.old back.reader between × TakesIn between back.writer hub.new }
    ensures hung_up { HangsUp (N.Conn.In.Source.faults back.input) (N.Conn.Out.Sink.faults back.output) (N.Conn.Out.written back.output) (N.told net.old) (N.told net.new) }
    ensures told { result ≡ record { link = link; in_end = back.in_end; out_end = back.out_end } }
{
    let LinkBack {
        reader,
        writer,
        input,
        output,
        in_end,
        out_end,
    } = back;
    hub.join(reader);
    hub.join(writer);
    net.hang_up(input, output);
    Told {
        link,
        in_end,
        out_end,
    }
}
