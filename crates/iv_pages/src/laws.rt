//! Laws of what is answered, and examples. Each is the contract of a function that does nothing.
ghost use Rattle.std.specs.Prelude.{◌≡◌, ◌∷◌, [], codes, true, false};
ghost use Rattle.iv_pages.specs.Answer.{is_known};
ghost use Rattle.iv_pages.specs.Figures.{sample_line};
ghost use Rattle.iv_pages.specs.Kind.{kind_of};
ghost use Rattle.iv_pages.specs.Place.{PlacesAreInside, PlainIsNamed, place_of};
ghost use Rattle.iv_pages.specs.Worked.{escaped_label, escaped_line, known_list};

/// No target names a path that leads out of the folder of pages, or one that is hidden. Each other path without `%` and `?` is named by itself.
pub fn places_are_inside()
    ensures inside { PlacesAreInside }
    ensures named { PlainIsNamed }
{}

/// Targets, and the files that they name.
pub fn places_are_named()
    ensures folder { place_of (codes "/desk/?a=b") ≡ Some (codes "desk/index.html") }
    ensures dots { place_of (codes "/%2e%2e/etc/passwd") ≡ None }
    ensures once { place_of (codes "/%252e%252e/x") ≡ Some (codes "%2e%2e/x") }
    ensures slash { place_of (codes "/a%2f..%2fb") ≡ None }
    ensures hidden { place_of (codes "/.git/config") ≡ None }
    ensures bare { kind_of (codes "a.b/html") ≡ codes "application/octet-stream" }
    ensures kind { kind_of (codes "web/viewd.js") ≡ codes "text/javascript; charset=utf-8" }
{}

/// An answer by a tag that is known, and a figure whose label is escaped.
pub fn answers_are_worked()
    ensures known { is_known (Some (codes "\"c3p0\"")) (Some known_list) ≡ true }
    ensures weak { is_known (Some (codes "W/\"xyzzy\"")) (Some known_list) ≡ true }
    ensures other { is_known (Some (codes "\"c3p\"")) (Some known_list) ≡ false }
    ensures escaped { sample_line (codes "files") (escaped_label ∷ []) 7 ≡ escaped_line }
{}
