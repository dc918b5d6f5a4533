// The styles of the drum kit.
ghost use Rattle.std.specs.Prelude.{◌≡◌};
ghost use Rattle.dsl.specs.Kit.{style_at};

// In the source's order.
#[derive(Clone, Copy)]
pub enum KitStyle {
    Classic,
    Acoustic,
    Electronic,
    Eight08,
}

impl KitStyle {
    // The style at a place of the source's order, counted from 0.
    pub fn at(place: u32) -> Option<KitStyle>
        ensures { result ≡ style_at place }
    {
        match place {
            0 => Some(KitStyle::Classic),
            1 => Some(KitStyle::Acoustic),
            2 => Some(KitStyle::Electronic),
            3 => Some(KitStyle::Eight08),
            _ => None,
        }
    }
}
