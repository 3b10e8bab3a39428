ghost use Rattle.std.specs.Prelude.{◌≡◌, map, count_by};
ghost use Rattle.std.specs.List.{list_all};
ghost use Rattle.dh_categories.specs.Combos.{is_option_of, has_one_of, is_one_of_each};

/// Whether the options are one of each category: as many as the categories, and exactly one of them
/// of each.
pub fn is_one_of_each(categories: &[Vec<u32>], options: &[u32]) -> bool
    ensures { result ≡ is_one_of_each (map (λ category. category.items) categories.now) options.now }
{
    options.len() == categories.len() && each_has_one(categories, options)
}

fn each_has_one(categories: &[Vec<u32>], options: &[u32]) -> bool
    ensures { result ≡ list_all (λ category. has_one_of options.now category.items) categories.now }
{
    categories
        .iter()
        .all(|category| has_one(options, category.as_slice()))
}

fn has_one(options: &[u32], category: &[u32]) -> bool
    ensures { result ≡ has_one_of options.now category.now }
{
    count_of(options, category) == 1
}

fn count_of(options: &[u32], category: &[u32]) -> usize
    ensures { result ≡ count_by (λ option. is_option_of category.now option) options.now }
{
    options
        .iter()
        .filter(|option| category.contains(option))
        .count()
}
