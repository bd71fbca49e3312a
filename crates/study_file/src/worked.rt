//! What the definitions give on worked examples.

ghost use Rattle.std.specs.Prelude.{◌≡◌, Some, None, codes, option_map};
ghost use Rattle.toml.specs.Parse.{parse_document};
ghost use Rattle.study_file.specs.Keys.{broken_key};
ghost use Rattle.study_file.specs.Worked.{shape_keys};

/// The places at which small tables haven't the keys of their kind.
pub fn keys_of_shapes()
    ensures held { option_map (broken_key (codes "polygon") shape_keys) (parse_document (codes "corners = [[0, 1], [2, 3]]\nname = \"a\"\n")) ≡ Some None }
    ensures wrong_type { option_map (broken_key (codes "polygon") shape_keys) (parse_document (codes "weight = \"b\"\nname = \"a\"\n")) ≡ Some (Some 2) }
    ensures missing { option_map (broken_key (codes "polygon") shape_keys) (parse_document (codes "name = \"a\"\nother = 1\n")) ≡ Some (Some 3) }
    ensures no_pairs { option_map (broken_key (codes "polygon") shape_keys) (parse_document (codes "name = \"a\"\ncorners = [[1]]\n")) ≡ Some (Some 3) }
    ensures another_key { option_map (broken_key (codes "circle") shape_keys) (parse_document (codes "name = \"a\"\ncorners = []\n")) ≡ Some (Some 99) }
{}
