// One row of an item list, and the rules for a row by itself.
#![tactic(auto)]

ghost use Rattle.std.specs.Prelude.{◌≡◌, ◌≤◌};
ghost use Rattle.item.specs.Kinds.{kind_of, is_source_kind, is_style_kind};
ghost use Rattle.item.specs.Rows.{row_of, is_mark, is_listed, entries_of};

// What an item is, with the two letters that Lottie writes for it.
#[derive(Clone, Copy, PartialEq, Eq)]
pub enum Kind {
    // sh
    Path,
    // rc
    Rect,
    // el
    Ellipse,
    // sr
    Star,
    // gr
    Group,
    // tr
    Transform,
    // fl
    Fill,
    // st
    Stroke,
    // gf
    GradientFill,
    // gs
    GradientStroke,
    // tm
    Trim,
    // rp
    Repeater,
    // mm
    Merge,
    // Any other item of Lottie's.
    Other,
    // A number that stands for no kind: a row is read before it is judged. It is a case and no `Option<Kind>`, in which each definition
    // on kinds would name the `Some` around the others.
    Unlisted,
}

// C lends a kind as its number.
impl From<u32> for Kind {
    ghost from_gives = { λ number kind. kind ≡ kind_of number };

    #[tactic(auto, unfolding(crate::specs::Kinds::kind_of))]
    fn from(number: u32) -> Kind {
        match number {
            1 => Kind::Path,
            2 => Kind::Rect,
            3 => Kind::Ellipse,
            4 => Kind::Star,
            5 => Kind::Group,
            6 => Kind::Transform,
            7 => Kind::Fill,
            8 => Kind::Stroke,
            9 => Kind::GradientFill,
            10 => Kind::GradientStroke,
            11 => Kind::Trim,
            12 => Kind::Repeater,
            13 => Kind::Merge,
            14 => Kind::Other,
            _ => Kind::Unlisted,
        }
    }
}

impl Kind {
    // Whether it can be drawn.
    pub fn is_source(self) -> bool
        ensures { result ≡ is_source_kind self }
    {
        matches!(self, Kind::Path | Kind::Rect | Kind::Ellipse | Kind::Star)
    }

    // Whether it colours or alters a drawing.
    pub fn is_style(self) -> bool
        ensures { result ≡ is_style_kind self }
    {
        matches!(
            self,
            Kind::Fill
                | Kind::Stroke
                | Kind::GradientFill
                | Kind::GradientStroke
                | Kind::Trim
                | Kind::Repeater
        )
    }

    // Whether it may bear a mark, which is a number as in the row.
    #[tactic(auto, unfolding(crate::specs::Rows::is_mark))]
    fn may_bear(self, mark: u32) -> bool
        ensures { result ≡ is_mark self mark }
    {
        match self {
            Kind::Path => mark <= 1,
            Kind::Merge => mark <= 255,
            _ => mark == 0,
        }
    }
}

#[derive(Clone, Copy)]
pub struct ItemRow {
    pub kind: Kind,
    // 1 for hidden and 0 for visible: a number, since a row with any other is read too, and then judged.
    pub hidden: u32,
    pub depth: u32,
    // The closed flag of a path, or the mode of a merge: a number, since any may be lent, and the kind tells which are listed.
    pub mark: u32,
    // Where its numbers start.
    pub place: usize,
    // How many vertices.
    pub count: usize,
}

impl From<[u32; 6]> for ItemRow {
    ghost from_gives = { λ entries row. row ≡ row_of entries };

    fn from(entries: [u32; 6]) -> ItemRow {
        let [kind, hidden, depth, mark, place, count] = entries;
        ItemRow {
            kind: Kind::from(kind),
            hidden,
            depth,
            mark,
            place: place as usize,
            count: count as usize,
        }
    }
}

impl ItemRow {
    // Whether it has only listed entries.
    #[tactic(auto, unfolding(crate::specs::Rows::is_listed))]
    pub fn is_listed(self) -> bool
        ensures { result ≡ is_listed self }
    {
        self.kind != Kind::Unlisted
            && self.hidden <= 1
            && self.kind.may_bear(self.mark)
            && (self.kind == Kind::Path || self.count == 0)
    }

    // How many numbers it has in the item list.
    #[tactic(auto, unfolding(crate::specs::Rows::entries_of))]
    pub fn entries(self) -> usize
        requires { self.count ≤ 1024 }
        ensures { result ≡ entries_of self }
    {
        match self.kind {
            Kind::Path => 6 * self.count,
            Kind::Rect => 5,
            Kind::Ellipse => 4,
            _ => 0,
        }
    }
}
