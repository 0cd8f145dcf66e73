//! What may cross threads: a client and a hub of one thread may be sent to another, and threads may share what clients share.
use crate::client::{HubClient, Shared};
use crate::own::OwnHub;

fn may_be_sent<T: Send>(_value: &T) {}

fn may_be_shared<T: Sync>(_value: &T) {}

fn a_client_may_be_sent(client: &HubClient) {
    may_be_sent(client);
}

fn an_own_hub_may_be_sent(own: &OwnHub) {
    may_be_sent(own);
}

fn gates_may_be_sent(shared: &Shared) {
    may_be_sent(shared);
}

fn gates_may_be_shared(shared: &Shared) {
    may_be_shared(shared);
}
