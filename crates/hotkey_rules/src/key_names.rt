//! The table of named keys.

ghost use Rattle.std.specs.Prelude.{◌≡◌, ◌==◌};
ghost use Rattle.std.specs.Option.{option_copied};
ghost use Rattle.share_base.specs.Names.{same_name};
ghost use Rattle.hotkey_rules.specs.KeyNames as spec;

use share_base::KeyId;
use std::marker::Model;

/// A row of the table.
#[derive(Drop)]
struct NamedKey {
    name: &'static str,
    id: KeyId,
}

impl Model for NamedKey {
    ghost use Rattle.hotkey_rules.specs.KeyNames as spec;

    ghost Value = { spec.NamedKey };

    ghost view = { λ k. record { name = k.name.now; id = k.id } };
}

impl NamedKey {
    #[tactic(auto, unfolding(share_base::specs::Names::same_name))]
    fn is_called(&self, name: &[u8]) -> bool
        ensures { result ≡ same_name self.now.name name.now }
    {
        self.name.as_bytes().eq_ignore_ascii_case(name)
    }

    fn has_id(&self, id: KeyId) -> bool
        ensures { result ≡ (self.now.id.0 == id.0) }
    {
        self.id == id
    }

    fn id(&self) -> KeyId
        ensures { result ≡ self.now.id }
    {
        self.id
    }

    fn name(&self) -> &'static str
        ensures { result.now ≡ self.now.name }
    {
        self.name
    }
}

fn row(name: &'static str, id: u16) -> NamedKey
    ensures { result ≡ spec.row name.now id }
{
    NamedKey {
        name,
        id: KeyId(id),
    }
}

/// All rows, by rising id.
#[tactic(auto, unfolding(crate::specs::KeyNames::named_keys))]
fn named_keys() -> [NamedKey; 35]
    ensures { result ≡ spec.named_keys }
{
    [
        row("BackSpace", 0xef08),
        row("Tab", 0xef09),
        row("Return", 0xef0d),
        row("ScrollLock", 0xef14),
        row("Escape", 0xef1b),
        row("Home", 0xef50),
        row("Left", 0xef51),
        row("Up", 0xef52),
        row("Right", 0xef53),
        row("Down", 0xef54),
        row("NumLock", 0xef7f),
        row("F1", 0xefbe),
        row("F2", 0xefbf),
        row("F3", 0xefc0),
        row("F4", 0xefc1),
        row("F5", 0xefc2),
        row("F6", 0xefc3),
        row("F7", 0xefc4),
        row("F8", 0xefc5),
        row("F9", 0xefc6),
        row("F10", 0xefc7),
        row("F11", 0xefc8),
        row("F12", 0xefc9),
        row("Shift_L", 0xefe1),
        row("Shift_R", 0xefe2),
        row("Control_L", 0xefe3),
        row("Control_R", 0xefe4),
        row("CapsLock", 0xefe5),
        row("Meta_L", 0xefe7),
        row("Meta_R", 0xefe8),
        row("Alt_L", 0xefe9),
        row("Alt_R", 0xefea),
        row("Super_L", 0xefeb),
        row("Super_R", 0xefec),
        row("Delete", 0xefff),
    ]
}

/// The key of that name, in capital or small letters. `None` if no row has it. It takes no memory.
#[tactic(auto, unfolding(crate::specs::KeyNames::key_of_name))]
pub fn key_of_name(name: &[u8]) -> Option<KeyId>
    ensures { result ≡ spec.key_of_name name.now }
{
    let keys = named_keys();
    let key = keys.iter().find(|key| key.is_called(name))?;
    Some(key.id())
}

/// The name of that key, as the table spells it. `None` if no row has the key. It takes no memory.
#[tactic(auto, unfolding(crate::specs::KeyNames::name_of_key))]
pub fn name_of_key(id: KeyId) -> Option<&'static str>
    ensures { option_copied result ≡ spec.name_of_key id }
{
    let keys = named_keys();
    let key = keys.iter().find(|key| key.has_id(id))?;
    Some(key.name())
}
