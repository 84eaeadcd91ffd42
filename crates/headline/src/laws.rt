//! What every run keeps.

ghost use Rattle.headline.specs.Sharing.{SharedByAttention};

/// Over an accepted configuration and script, whatever the hub answers, each connection has taken a
/// prefix of what the machine queued for it, and all of it where it takes what it is offered; each
/// input event goes to the active screen alone or to its hotkey; and a screen that is not active
/// holds no key and no button.
pub fn shared_by_attention()
    ensures { SharedByAttention }
{}
