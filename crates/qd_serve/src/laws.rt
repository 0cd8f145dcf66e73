//! What holds of serving, as the contract of a function that does nothing.

ghost use Rattle.qd_serve.specs.Steps.{TakesOneMore};

/// Where the hub took in the clients of one more link that ran, all links that were served stay so, and that link is served too.
pub fn one_more_link_is_served()
    ensures { TakesOneMore }
{}
