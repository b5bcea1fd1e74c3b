// The ranges of names, features and relations, and the kinds of the value features.
ghost use Rattle.std.specs.Prelude.{◌≡◌, ℕ};
ghost use Rattle.concept.specs.Concepts.{is_name, is_link, is_value, is_feature, is_relation, kind_at};

// Names are 1 to 255.
pub(crate) fn is_name(name: u32) -> bool
    ensures { result ≡ is_name name }
{
    matches!(name, 1..=255)
}

// Link features are 1 to 127.
pub(crate) fn is_link(feature: u32) -> bool
    ensures { result ≡ is_link feature }
{
    matches!(feature, 1..=127)
}

// Value features are 128 to 255.
pub fn is_value(feature: u32) -> bool
    ensures { result ≡ is_value feature }
{
    matches!(feature, 128..=255)
}

// Features are 1 to 255, links and values together.
pub(crate) fn is_feature(feature: u32) -> bool
    ensures { result ≡ is_feature feature }
{
    matches!(feature, 1..=255)
}

// Relations are the link features, and the roles 256 to 511.
pub fn is_relation(relation: u32) -> bool
    ensures { result ≡ is_relation relation }
{
    is_link(relation) || matches!(relation, 256..=511)
}

// The kind of a value feature; 0 where none is listed.
pub fn kind_at(kinds: &[u32], feature: u32) -> u32
    ensures { result ≡ kind_at kinds.now feature }
{
    let place = feature.saturating_sub(128) as usize;
    kinds.get(place).copied().unwrap_or(0)
}
