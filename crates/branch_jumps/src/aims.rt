//! Which jumps are looked for.
ghost use Rattle.std.specs.Prelude.{◌≡◌, ◌&&◌, ◌∷◌, not};
ghost use Rattle.swc_ast.specs.Meaning.{has_label};
ghost use Rattle.branch_rules.specs.Jumps as rules;
ghost use Rattle.branch_rules.specs.Once as once;
ghost use Rattle.branch_rules.specs.Switches as switches;
ghost use Rattle.branch_jumps.specs.Aims.{kinds, label_texts, sought, texts};

/// Labels round a place, the innermost first.
#[derive(Clone, Copy)]
pub struct Labels<'a> {
    /// the innermost
    pub label: &'a str,
    /// the others, if there are any
    pub others: Option<&'a Labels<'a>>,
}

impl<'a> Labels<'a> {
    /// A label that stands inside others.
    pub fn new(label: &'a str, others: Option<&'a Labels<'a>>) -> Labels<'a>
        ensures { label_texts result ≡ label.entry.now ∷ texts others.entry }
    {
        Labels { label, others }
    }
}

/// Whether a label is among some.
fn is_among(label: &str, labels: Option<&Labels<'_>>) -> bool
    ensures { result ≡ has_label label.now (texts labels.entry) }
{
    match labels {
        Some(n) => label == n.label || is_among(label, n.others),
        None => false,
    }
}

/// With which labels `continue` is looked for.
#[derive(Clone, Copy)]
pub enum Sought<'a> {
    /// every label
    Every,
    /// some, if there are any
    Only(Option<&'a Labels<'a>>),
}

impl<'a> Sought<'a> {
    fn has(self, label: &str) -> bool
        ensures { result ≡ rules.is_sought (sought self.entry) label.now }
    {
        match self {
            Sought::Every => true,
            Sought::Only(labels) => is_among(label, labels),
        }
    }
}

/// Which jumps are looked for; those with a label but `continue` never are.
#[derive(Clone, Copy)]
pub struct Jumps<'a> {
    /// `break`
    pub breaks: bool,
    /// `continue`
    pub continues: bool,
    /// `continue` with a label
    pub labelled: Sought<'a>,
    /// the labels with which `continue` isn't looked for: those of the loops round the place that are looked into
    /// themselves
    pub inside: Option<&'a Labels<'a>>,
}

impl<'a> Jumps<'a> {
    /// Those that may be aimed at a loop whose labels are among some.
    pub fn looping(labels: Sought<'a>) -> Jumps<'a>
        ensures { kinds result ≡ once.looping (sought labels.entry) }
    {
        Jumps {
            breaks: true,
            continues: true,
            labelled: labels,
            inside: None,
        }
    }

    /// `break` of a `switch`.
    pub fn breaking() -> Jumps<'a>
        ensures { kinds result ≡ switches.breaking }
    {
        Jumps {
            breaks: true,
            continues: false,
            labelled: Sought::Only(None),
            inside: None,
        }
    }

    /// Those that leave a loop which stands inside, with its labels in front of those of the loops round it.
    pub(crate) fn in_loop(self, near: Option<&'a Labels<'a>>) -> Jumps<'a>
        ensures { kinds result ≡ rules.in_loop (texts near.entry) (kinds self.entry) }
    {
        Jumps {
            breaks: false,
            continues: false,
            labelled: self.labelled,
            inside: near,
        }
    }

    /// Those that leave a `switch` which stands inside.
    pub(crate) fn in_switch(self) -> Jumps<'a>
        ensures { kinds result ≡ rules.in_switch (kinds self.entry) }
    {
        Jumps {
            breaks: false,
            continues: self.continues,
            labelled: self.labelled,
            inside: self.inside,
        }
    }

    /// Whether `continue` with this label is looked for.
    pub(crate) fn has_label(self, label: &str) -> bool
        ensures { result ≡ (rules.is_sought (kinds self.entry).labelled label.now && not (has_label label.now (kinds self.entry).inside)) }
    {
        self.labelled.has(label) && !is_among(label, self.inside)
    }
}
